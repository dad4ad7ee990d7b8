ghost use Rattle.std.specs.Prelude.{◌≡◌, ◌++◌, ◌∷◌, [], OnOk, map, drop};
ghost use Rattle.fleet_acts.specs.Lines as spec;
ghost use Rattle.fleet_acts.specs.Lines.{told_lines, closing_lines};
ghost use Rattle.fleet_run.specs.Acts.{order_line, answer_lines};
ghost use Rattle.order_machine.specs.declared.observation.Observation.{Observation};

use events::Answer;
use order_machine::{Observation, Observations, line_of_answer};
use rc_base::{NoMemory, ReplicaId};
use replica_model::{Commits, Outcome, StepEvent, TxnIds};

// Whether a replica that was active still is, before it looks at what has been reached.
pub(crate) fn stays_active(event: &StepEvent, active: bool) -> bool
    ensures { result ≡ spec.stays_active event.now active }
{
    match event {
        StepEvent::Appoint(_) => false,
        _ => active,
    }
}

// The commits enter the order, but for the first ones, which it knows.
fn tell_orders(commits: Commits, known: usize, lines: &mut Observations) -> Result<(), NoMemory>
    ensures { OnOk result (lines.new ≡ lines.old ++ map order_line (drop known commits)) }
{
    for commit in commits.into_vec().into_iter().skip(known) {
        lines.push(Observation::Order(commit.txn, commit.ops))?;
    }
    Ok(())
}

fn tell_acknowledged(txns: TxnIds, lines: &mut Observations) -> Result<(), NoMemory>
    ensures { OnOk result (lines.new ≡ lines.old ++ map Observation.Committed txns) }
{
    for txn in txns.into_vec() {
        lines.push(Observation::Committed(txn))?;
    }
    Ok(())
}

fn tell_view(
    id: ReplicaId,
    shown: u64,
    now_shown: u64,
    lines: &mut Observations,
) -> Result<(), NoMemory>
    ensures { OnOk result (lines.new ≡ lines.old ++ spec.view_lines id shown now_shown) }
{
    if shown < now_shown {
        lines.push(Observation::View(id, now_shown))?;
    }
    Ok(())
}

fn tell_active(
    id: ReplicaId,
    was_active: bool,
    active: bool,
    lines: &mut Observations,
) -> Result<(), NoMemory>
    ensures { OnOk result (lines.new ≡ lines.old ++ spec.active_lines id was_active active) }
{
    if active && !was_active {
        lines.push(Observation::Active(id))?;
    }
    Ok(())
}

fn tell_answer(answer: Option<Answer>, lines: &mut Observations) -> Result<(), NoMemory>
    ensures { OnOk result (lines.new ≡ lines.old ++ answer_lines answer) }
{
    match answer {
        Some(answer) => lines.push(line_of_answer(answer)),
        None => Ok(()),
    }
}

fn tell_closing(closing: Option<Observation>, lines: &mut Observations) -> Result<(), NoMemory>
    ensures { OnOk result (lines.new ≡ lines.old ++ closing_lines closing) }
{
    match closing {
        Some(line) => lines.push(line),
        None => Ok(()),
    }
}

// Lines behind those before them.
pub(crate) fn append(more: Observations, lines: &mut Observations) -> Result<(), NoMemory>
    ensures { OnOk result (lines.new ≡ lines.old ++ more) }
{
    for line in more.into_vec() {
        lines.push(line)?;
    }
    Ok(())
}

// What an outcome tells of commits that come to be shown.
fn tell_shown(
    id: ReplicaId,
    known: usize,
    shown: u64,
    was_active: bool,
    outcome: Outcome,
    lines: &mut Observations,
) -> Result<(), NoMemory>
    ensures { OnOk result (lines.new ≡ lines.old ++ told_lines known id shown was_active outcome [] []) }
{
    let Outcome {
        answer,
        commits,
        acknowledged,
        shown: now_shown,
        active,
        ..
    } = outcome;
    tell_orders(commits, known, lines)?;
    tell_view(id, shown, now_shown, lines)?;
    tell_active(id, was_active, active, lines)?;
    tell_acknowledged(acknowledged, lines)?;
    tell_answer(answer, lines)
}

// The lines of a step: those of its outcome, those of the contents that an inspection tells, and the one behind them.
pub(crate) fn tell(
    id: ReplicaId,
    known: usize,
    shown: u64,
    was_active: bool,
    outcome: Outcome,
    contents: Observations,
    closing: Option<Observation>,
    lines: &mut Observations,
) -> Result<(), NoMemory>
    ensures told { OnOk result (lines.new ≡ lines.old ++ told_lines known id shown was_active outcome contents (closing_lines closing)) }
{
    tell_shown(id, known, shown, was_active, outcome, lines)?;
    append(contents, lines)?;
    tell_closing(closing, lines)
}
