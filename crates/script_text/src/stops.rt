ghost use Rattle.std.specs.Prelude.{◌∷◌, codes};
ghost use Rattle.script_text.specs.Reading.{texts, AreReadAs};

use crate::operands::built_replica;
use crate::words::number;
use events::Event;

// `arm R K`, from the words after the first, as are the others here. No call is the 0th.
pub(crate) fn arm(operands: &[&[u8]]) -> Option<Event>
    ensures { AreReadAs (codes "arm" ∷ texts operands.now) result }
{
    let [r, calls] = operands else {
        return None;
    };
    let (r, calls) = (built_replica(r)?, number(calls)?);
    if calls == 0 {
        return None;
    }
    Some(Event::Arm(r, calls))
}

// `crash R PICK`.
pub(crate) fn crash(operands: &[&[u8]]) -> Option<Event>
    ensures { AreReadAs (codes "crash" ∷ texts operands.now) result }
{
    let [r, pick] = operands else {
        return None;
    };
    Some(Event::Crash(built_replica(r)?, number(pick)?))
}

// `reboot R`.
pub(crate) fn reboot(operands: &[&[u8]]) -> Option<Event>
    ensures { AreReadAs (codes "reboot" ∷ texts operands.now) result }
{
    let [r] = operands else {
        return None;
    };
    Some(Event::Reboot(built_replica(r)?))
}

// `inspect R`.
pub(crate) fn inspect(operands: &[&[u8]]) -> Option<Event>
    ensures { AreReadAs (codes "inspect" ∷ texts operands.now) result }
{
    let [r] = operands else {
        return None;
    };
    Some(Event::Inspect(built_replica(r)?))
}
