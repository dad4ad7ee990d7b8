ghost use Rattle.std.specs.Prelude.{◌∷◌, codes, IfOk};
ghost use Rattle.script_text.specs.Reading.{texts, AreReadAs};

use crate::operands::{built_epoch, built_members, built_replica};
use events::Event;
use rc_base::NoMemory;
use std::alloc::Global;

// `survey R E`, from the words after the first, as are the others here.
pub(crate) fn survey(alloc: Global, operands: &[&[u8]]) -> Result<Option<Event>, NoMemory>
    ensures { IfOk result (AreReadAs (codes "survey" ∷ texts operands.now)) }
{
    let [r, e] = operands else {
        return Ok(None);
    };
    let (Some(r), Some(e)) = (built_replica(r), built_epoch(alloc, e)?) else {
        return Ok(None);
    };
    Ok(Some(Event::Survey(r, e)))
}

// `appoint E P MEMBERS`.
pub(crate) fn appoint(alloc: Global, operands: &[&[u8]]) -> Result<Option<Event>, NoMemory>
    ensures { IfOk result (AreReadAs (codes "appoint" ∷ texts operands.now)) }
{
    let [e, p, members] = operands else {
        return Ok(None);
    };
    let (Some(e), Some(p)) = (built_epoch(alloc, e)?, built_replica(p)) else {
        return Ok(None);
    };
    let Some(members) = built_members(alloc, members)? else {
        return Ok(None);
    };
    Ok(Some(Event::Appoint(e, p, members)))
}

// `activate E`.
pub(crate) fn activate(alloc: Global, operands: &[&[u8]]) -> Result<Option<Event>, NoMemory>
    ensures { IfOk result (AreReadAs (codes "activate" ∷ texts operands.now)) }
{
    let [e] = operands else {
        return Ok(None);
    };
    let Some(e) = built_epoch(alloc, e)? else {
        return Ok(None);
    };
    Ok(Some(Event::Activate(e)))
}
