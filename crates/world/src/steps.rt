ghost use Rattle.std.specs.Prelude.{◌≡◌, ◌≢◌, ◌+◌, ◌<◌, ◌^◌, ◌++◌, ◌∷◌, [], IfOk, OnOk, IsErrOf, Ok, None, map, drop};
ghost use Rattle.rc_base.specs.Counts.{Counted};
ghost use Rattle.disk_model.specs.Disk.{Each};
ghost use Rattle.log_store.specs.declared.kept.Kept.{Kept as Log};
ghost use Rattle.log_store.specs.Durable.{StandForOneOf};
ghost use Rattle.order_machine.specs.declared.observation.Observation.{Observation};
ghost use Rattle.replica.specs.declared.error.StepError.TheVariants as errors;
ghost use Rattle.replica_model.specs.declared.step.StepEvent.TheVariants as steps;
ghost use Rattle.replica.specs.Open.{Open, AreSame};
ghost use Rattle.replica.specs.Step as step_spec;
ghost use Rattle.replica.specs.Step.{MayStep, block, outcome, stepped};
ghost use Rattle.world.specs.Steps as spec;
ghost use Rattle.world.specs.Steps.{told, told_rise, effects_after, order_line, is_due, finished, log_once, log_behind, IsCutOff, HoldsSome};
ghost use Rattle.world.specs.World.{IsOpen};

use crate::effects::EventEffects;
use disk_model::CrashDisk;
use events::{Answer, Call};
use order_machine::{Observation, Observations, line_of_answer};
use rc_base::{Epoch, Lsn, NoMemory, ReplicaId};
use replica::{Replica, StepError};
use replica_model::{Commits, Outcome, Role, StepEvent, TxnIds};

// Whether the role is that of an active primary.
pub(crate) fn is_active(role: Role) -> bool
    ensures { result ≡ step_spec.is_active role }
{
    matches!(role, Role::Primary { active: true, .. })
}

// The commits enter the order, but for the first ones, which it knows.
pub(crate) fn tell_orders(
    commits: Commits,
    known: usize,
    lines: &mut Observations,
) -> Result<(), NoMemory>
    ensures { OnOk result (lines.new ≡ lines.old ++ map order_line (drop known commits)) }
{
    for commit in commits.into_vec().into_iter().skip(known) {
        lines.push(Observation::Order(commit.txn, commit.ops))?;
    }
    Ok(())
}

fn tell_acknowledged(txns: TxnIds, lines: &mut Observations) -> Result<(), NoMemory>
    ensures { OnOk result (lines.new ≡ lines.old ++ map Observation.Committed txns) }
{
    for txn in txns.into_vec() {
        lines.push(Observation::Committed(txn))?;
    }
    Ok(())
}

// That a replica shows more, and became active.
pub(crate) fn tell_rise(
    replica: ReplicaId,
    shown: u64,
    was_active: bool,
    now_shown: u64,
    active: bool,
    lines: &mut Observations,
) -> Result<(), NoMemory>
    ensures { OnOk result (lines.new ≡ lines.old ++ told_rise replica shown was_active now_shown active) }
{
    if shown < now_shown {
        lines.push(Observation::View(replica, now_shown))?;
    }
    if active && !was_active {
        lines.push(Observation::Active(replica))?;
    }
    Ok(())
}

// The lines of an outcome at a replica, which showed so many commits, and was active or not.
fn tell(
    replica: ReplicaId,
    shown: u64,
    was_active: bool,
    outcome: Outcome,
    lines: &mut Observations,
) -> Result<(), NoMemory>
    ensures { OnOk result (lines.new ≡ lines.old ++ told replica shown was_active outcome) }
{
    let Outcome {
        answer,
        commits,
        acknowledged,
        shown: now_shown,
        active,
        ..
    } = outcome;
    tell_orders(commits, 0, lines)?;
    tell_rise(replica, shown, was_active, now_shown, active, lines)?;
    tell_acknowledged(acknowledged, lines)?;
    if let Some(answer) = answer {
        lines.push(line_of_answer(answer))?;
    }
    Ok(())
}

// How far a replica's log reaches by its answer, where it tells that: the epoch and the position of the last record.
fn progress_in(answer: &Option<Answer>) -> Option<(Epoch, Lsn)>
    ensures { result ≡ spec.progress_in answer.now }
{
    match answer {
        Some(Answer::Progress(_, last_epoch, last)) => Some((*last_epoch, Lsn(*last))),
        _ => None,
    }
}

// A step of replica 0, and its lines. Answers whether a Barrier is due after it.
pub(crate) fn take_step<M: CrashDisk>(
    replica: ReplicaId,
    opened: &mut Replica,
    disk: &mut M,
    event: &StepEvent,
    effects: &mut EventEffects,
) -> Result<bool, StepError>
    requires first { replica ≡ 0 }
    requires stands { (log : Log) × IsOpen opened.old log (M.images disk.old) }
    requires may { MayStep opened.old event.now }
    requires room { opened.old.last.0 + 2 < 2 ^ 48 }
    requires counted { opened.old.front.begins + 1 < 2 ^ 64 }
    ensures kept { OnOk result (AreSame opened.new (record (stepped opened.old event.now) { log = opened.new.log })) }
    ensures stands { OnOk result ((log : Log) → IsOpen opened.old log (M.images disk.old) → IsOpen opened.new (log_once opened.old event.now log) (M.images disk.new)) }
    ensures told { OnOk result (effects.new ≡ effects_after effects.old opened.old event.now) }
    ensures due { IfOk result (λ due. due ≡ is_due opened.old event.now) }
    ensures stop { (log : Log) → IsOpen opened.old log (M.images disk.old) → StandForOneOf log (log_once opened.old event.now log) (M.images disk.new) }
    ensures untold { IsErrOf result errors.Disk → effects.new ≡ effects.old }
    ensures logging { IsErrOf result errors.Disk → block opened.old event.now ≢ [] }
    ensures cause { Counted (M.faults disk.old) (M.faults disk.new) (IsErrOf result errors.Disk) }
    ensures marks { M.marks disk.new ≡ M.marks disk.old }
{
    let shown = opened.shown();
    let was_active = is_active(opened.role());
    let outcome = opened.step(disk, event)?;
    let due = outcome.barrier_due;
    effects.note(outcome.shown, outcome.active && !was_active);
    tell(replica, shown, was_active, outcome, &mut effects.lines)?;
    Ok(due)
}

// A survey of replica 0, and its lines: what it answered, where it did.
pub(crate) fn take_survey<M: CrashDisk>(
    replica: ReplicaId,
    opened: &mut Replica,
    disk: &mut M,
    epoch: Epoch,
    effects: &mut EventEffects,
) -> Result<Option<(Epoch, Lsn)>, StepError>
    requires first { replica ≡ 0 }
    requires stands { (log : Log) × IsOpen opened.old log (M.images disk.old) }
    requires room { opened.old.last.0 + 2 < 2 ^ 48 }
    requires counted { opened.old.front.begins + 1 < 2 ^ 64 }
    ensures kept { OnOk result (AreSame opened.new (record (stepped opened.old (steps.Survey epoch)) { log = opened.new.log })) }
    ensures stands { OnOk result ((log : Log) → IsOpen opened.old log (M.images disk.old) → IsOpen opened.new (log_once opened.old (steps.Survey epoch) log) (M.images disk.new)) }
    ensures told { OnOk result (effects.new ≡ effects_after effects.old opened.old (steps.Survey epoch)) }
    ensures answered { IfOk result (λ answered. answered ≡ spec.progress_in (outcome opened.old (steps.Survey epoch)).answer) }
    ensures stop { (log : Log) → IsOpen opened.old log (M.images disk.old) → StandForOneOf log (log_once opened.old (steps.Survey epoch) log) (M.images disk.new) }
    ensures untold { IsErrOf result errors.Disk → effects.new ≡ effects.old }
    ensures logging { IsErrOf result errors.Disk → block opened.old (steps.Survey epoch) ≢ [] }
    ensures cause { Counted (M.faults disk.old) (M.faults disk.new) (IsErrOf result errors.Disk) }
    ensures marks { M.marks disk.new ≡ M.marks disk.old }
{
    let shown = opened.shown();
    let was_active = is_active(opened.role());
    let outcome = opened.step(disk, &StepEvent::Survey { epoch })?;
    let answered = progress_in(&outcome.answer);
    effects.note(outcome.shown, outcome.active && !was_active);
    tell(replica, shown, was_active, outcome, &mut effects.lines)?;
    Ok(answered)
}

// A step of replica 0 and its lines, and after it the Barrier where one is due.
pub(crate) fn take_steps<M: CrashDisk>(
    replica: ReplicaId,
    opened: &mut Replica,
    disk: &mut M,
    event: &StepEvent,
    effects: &mut EventEffects,
) -> Result<(), StepError>
    requires first { replica ≡ 0 }
    requires stands { (log : Log) × IsOpen opened.old log (M.images disk.old) }
    requires may { MayStep opened.old event.now }
    requires room { opened.old.last.0 + 4 < 2 ^ 48 }
    requires counted { opened.old.front.begins + 2 < 2 ^ 64 }
    ensures kept { OnOk result (AreSame opened.new (record (finished opened.old event.now) { log = opened.new.log })) }
    ensures stands { OnOk result ((log : Log) → IsOpen opened.old log (M.images disk.old) → IsOpen opened.new (log_behind opened.old event.now log) (M.images disk.new)) }
    ensures told { OnOk result (effects.new ≡ effects_after effects.old opened.old event.now) }
    ensures cut { IsErrOf result errors.Disk → (log : Log) → IsOpen opened.old log (M.images disk.old) → IsCutOff opened.old event.now log effects.old effects.new (M.images disk.new) }
    ensures memory { IsErrOf result errors.NoMemory → (log : Log) → IsOpen opened.old log (M.images disk.old) → HoldsSome opened.old event.now log (M.images disk.new) }
    ensures cause { Counted (M.faults disk.old) (M.faults disk.new) (IsErrOf result errors.Disk) }
    ensures marks { M.marks disk.new ≡ M.marks disk.old }
{
    if take_step(replica, opened, disk, event, effects)? {
        take_step(replica, opened, disk, &StepEvent::Barrier, effects)?;
    }
    Ok(())
}

// A call at replica 0 and its lines, and after it the Barrier where one is due.
pub(crate) fn take_call<M: CrashDisk>(
    replica: ReplicaId,
    opened: &mut Replica,
    disk: &mut M,
    call: &Call,
    effects: &mut EventEffects,
) -> Result<(), StepError>
    requires first { replica ≡ 0 }
    requires stands { (log : Log) × IsOpen opened.old log (M.images disk.old) }
    requires may { MayStep opened.old (steps.Client call.now) }
    requires room { opened.old.last.0 + 4 < 2 ^ 48 }
    requires counted { opened.old.front.begins + 2 < 2 ^ 64 }
    ensures kept { OnOk result (AreSame opened.new (record (finished opened.old (steps.Client call.now)) { log = opened.new.log })) }
    ensures stands { OnOk result ((log : Log) → IsOpen opened.old log (M.images disk.old) → IsOpen opened.new (log_behind opened.old (steps.Client call.now) log) (M.images disk.new)) }
    ensures told { OnOk result (effects.new ≡ effects_after effects.old opened.old (steps.Client call.now)) }
    ensures cut { IsErrOf result errors.Disk → (log : Log) → IsOpen opened.old log (M.images disk.old) → IsCutOff opened.old (steps.Client call.now) log effects.old effects.new (M.images disk.new) }
    ensures memory { IsErrOf result errors.NoMemory → (log : Log) → IsOpen opened.old log (M.images disk.old) → HoldsSome opened.old (steps.Client call.now) log (M.images disk.new) }
    ensures cause { Counted (M.faults disk.old) (M.faults disk.new) (IsErrOf result errors.Disk) }
    ensures marks { M.marks disk.new ≡ M.marks disk.old }
{
    let event = StepEvent::Client(call.clone()?);
    take_steps(replica, opened, disk, &event, effects)
}
