ghost use Rattle.std.specs.Prelude.{◌≡◌, ◌⊎◌, ◌+◌, ◌<◌, ◌≤◌, ◌^◌, ◌++◌, ◌∷◌, [], IfOk, OnOk, IsErrOf, None, Some, true, if◌then◌else◌};
ghost use Rattle.rc_base.specs.Counts.{Counted};
ghost use Rattle.config_rule.specs.Rule.{after_boot, after_active};
ghost use Rattle.log_store.specs.declared.kept.Kept.{Kept as Log};
ghost use Rattle.log_store.specs.Durable.{StandFor, StandForOneOf};
ghost use Rattle.log_store.specs.Fold.{no_log};
ghost use Rattle.order_machine.specs.Legal.{IsWhole, moved};
ghost use Rattle.order_machine.specs.Machine.{empty_machine};
ghost use Rattle.order_machine.specs.declared.observation.Observation.TheVariants as says;
ghost use Rattle.replica.specs.declared.error.StepError.TheVariants as errors;
ghost use Rattle.replica_model.specs.declared.step.StepEvent.TheVariants as steps;
ghost use Rattle.replica.specs.Open.{AreSame};
ghost use Rattle.replica.specs.Step.{MayStep, stepped};
ghost use Rattle.events.specs.declared.event.Event.TheVariants.{Boot};
ghost use Rattle.world.specs.Fleet.{faults_in, RoseBy, TellsZero};
ghost use Rattle.order_machine.specs.Transitions.{first_epoch};
ghost use Rattle.world.specs.Kept.{no_events};
ghost use Rattle.world.specs.Steps as spec;
ghost use Rattle.world.specs.Steps.{no_effects, effects_started, finished, log_behind, log_once, HoldsSome};
ghost use Rattle.world.specs.World.{AsReplica, IsOpen, IsRuled};

use crate::effects::EventEffects;
use crate::opening::open_replica;
use crate::steps::{take_step, tell_orders, tell_rise};
use config_rule::{Appointment, Rule};
use disk_model::CrashDisk;
use order_machine::{Observation, Observations};
use rc_base::{Epoch, Members, MembersError, NoMemory, ReplicaId};
use replica::{Replica, StepError};
use replica_model::StepEvent;
use std::alloc::Global;

// The epoch that a boot starts.
pub(crate) const FIRST_EPOCH: Epoch = Epoch { loss: 0, number: 1 };

// The configuration of this one member.
fn members_alone(alloc: Global, member: ReplicaId) -> Result<Members, NoMemory>
    ensures { IfOk result (λ members. members ≡ member ∷ []) }
{
    match Members::from_slice(alloc, &[member]) {
        Ok(members) => Ok(members),
        Err(MembersError::NoMemory) => Err(NoMemory),
        Err(MembersError::Twice { .. }) => unreachable!(),
    }
}

// The rule of reconfiguration of a world that is booted with this one member.
pub(crate) fn first_rule(alloc: Global, member: ReplicaId) -> Result<Rule, NoMemory>
    requires first { member ≡ 0 }
    ensures { IfOk result (λ rule. rule ≡ after_boot (0 ∷ [])) }
{
    let members = members_alone(alloc, member)?;
    Rule::new(alloc, &members)
}

// The appointment of a boot with this one member, which counts as activated.
fn first_appointment(alloc: Global, member: ReplicaId) -> Result<Appointment, NoMemory>
    requires first { member ≡ 0 }
    ensures { IfOk result (λ appointment. appointment ≡ spec.first_appointment) }
{
    let pc = members_alone(alloc, member)?;
    let cc = members_alone(alloc, member)?;
    Ok(Appointment {
        epoch: FIRST_EPOCH,
        primary: member,
        pc,
        cc,
    })
}

// Boots replica 0 over a disk without a log: opens it and starts the first epoch, and tells so. These are all lines of the
// boot. None where the disk failed, which is told then.
pub(crate) fn boot_replica<M: CrashDisk>(
    alloc: Global,
    replica: ReplicaId,
    disk: &mut M,
    effects: &mut EventEffects,
) -> Result<Option<Replica>, NoMemory>
    requires first { replica ≡ 0 }
    requires empty { StandFor no_log (M.images disk.old) }
    requires begins { effects.old ≡ no_effects 0 }
    ensures whole { OnOk result (IsWhole empty_machine (Boot 0 (0 ∷ [])) effects.new.lines) }
    ensures stands { IfOk result (λ o. AsReplica o 1 (M.images disk.new) (moved empty_machine (Boot 0 (0 ∷ [])) effects.new.lines)) }
    ensures ruled { OnOk result (IsRuled (record no_events { rule = Some (if effects.new.active then after_active (after_boot (0 ∷ [])) first_epoch else after_boot (0 ∷ [])); order = effects.new.order }) (moved empty_machine (Boot 0 (0 ∷ [])) effects.new.lines)) }
    ensures others { OnOk result (TellsZero effects.new.lines) }
    ensures faults { OnOk result (RoseBy (faults_in 0 effects.new.lines) (M.faults disk.old) (M.faults disk.new)) }
    ensures later { M.faults disk.old ≤ M.faults disk.new }
    ensures marks { M.marks disk.new ≡ M.marks disk.old }
{
    let first = first_appointment(alloc, replica)?;
    let Some(mut opened) = open_replica(alloc, replica, disk, &mut effects.lines)? else {
        return Ok(None);
    };
    match start_epoch(replica, &mut opened, disk, first, effects) {
        Ok(()) => Ok(Some(opened)),
        Err(StepError::Disk) => {
            effects.lines.push(Observation::Fault(replica))?;
            Ok(None)
        }
        Err(StepError::NoMemory) => Err(NoMemory),
    }
}

// The replica starts the epoch of an appointment, answers, and logs a Barrier.
pub(crate) fn start_epoch<M: CrashDisk>(
    replica: ReplicaId,
    opened: &mut Replica,
    disk: &mut M,
    appointment: Appointment,
    effects: &mut EventEffects,
) -> Result<(), StepError>
    requires first { replica ≡ 0 }
    requires stands { (log : Log) × IsOpen opened.old log (M.images disk.old) }
    requires may { MayStep opened.old (steps.Appoint appointment) }
    requires room { opened.old.last.0 + 4 < 2 ^ 48 }
    requires counted { opened.old.front.begins + 1 < 2 ^ 64 }
    ensures kept { OnOk result (AreSame opened.new (record (finished opened.old (steps.Appoint appointment)) { log = opened.new.log })) }
    ensures stands { OnOk result ((log : Log) → IsOpen opened.old log (M.images disk.old) → IsOpen opened.new (log_behind opened.old (steps.Appoint appointment) log) (M.images disk.new)) }
    ensures told { OnOk result (effects.new ≡ effects_started effects.old appointment opened.old) }
    ensures cut { IsErrOf result errors.Disk → ((effects.new ≡ effects.old) × ((log : Log) → IsOpen opened.old log (M.images disk.old) → StandForOneOf log (log_once opened.old (steps.Appoint appointment) log) (M.images disk.new))) ⊎ (effects.new ≡ effects_started effects.old appointment opened.old) }
    ensures stop { (log : Log) → IsOpen opened.old log (M.images disk.old) → HoldsSome opened.old (steps.Appoint appointment) log (M.images disk.new) }
    ensures cause { Counted (M.faults disk.old) (M.faults disk.new) (IsErrOf result errors.Disk) }
    ensures marks { M.marks disk.new ≡ M.marks disk.old }
{
    take_start(replica, opened, disk, appointment, effects)?;
    take_step(replica, opened, disk, &StepEvent::Barrier, effects)?;
    Ok(())
}

// The step that starts the epoch of an appointment, its lines and its answer.
fn take_start<M: CrashDisk>(
    replica: ReplicaId,
    opened: &mut Replica,
    disk: &mut M,
    appointment: Appointment,
    effects: &mut EventEffects,
) -> Result<(), StepError>
    requires first { replica ≡ 0 }
    requires stands { (log : Log) × IsOpen opened.old log (M.images disk.old) }
    requires may { MayStep opened.old (steps.Appoint appointment) }
    requires room { opened.old.last.0 + 4 < 2 ^ 48 }
    requires counted { opened.old.front.begins + 1 < 2 ^ 64 }
    ensures kept { OnOk result (AreSame opened.new (record (stepped opened.old (steps.Appoint appointment)) { log = opened.new.log })) }
    ensures stands { OnOk result ((log : Log) → IsOpen opened.old log (M.images disk.old) → IsOpen opened.new (log_once opened.old (steps.Appoint appointment) log) (M.images disk.new)) }
    ensures told { OnOk result (effects.new ≡ effects_started effects.old appointment opened.old) }
    ensures stop { (log : Log) → IsOpen opened.old log (M.images disk.old) → StandForOneOf log (log_once opened.old (steps.Appoint appointment) log) (M.images disk.new) }
    ensures untold { IsErrOf result errors.Disk → effects.new ≡ effects.old }
    ensures cause { Counted (M.faults disk.old) (M.faults disk.new) (IsErrOf result errors.Disk) }
    ensures marks { M.marks disk.new ≡ M.marks disk.old }
{
    let shown = opened.shown();
    let outcome = opened.step(disk, &StepEvent::Appoint(appointment))?;
    let known = effects.order.saturating_sub(shown) as usize;
    effects.note(outcome.shown, outcome.active);
    tell_orders(outcome.commits, known, &mut effects.lines)?;
    tell_rise(
        replica,
        shown,
        false,
        outcome.shown,
        true,
        &mut effects.lines,
    )?;
    effects.lines.push(Observation::Done)?;
    Ok(())
}
