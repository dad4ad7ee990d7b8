ghost use Rattle.std.specs.Prelude.{◌≡◌, ◌∷◌, List, ℕ, codes, decimal, IfOk, IfSome, IfNone};
ghost use Rattle.events.specs.declared.call.Call.{Call as CallValue};
ghost use Rattle.events.specs.declared.event.Event.TheVariants.{Client};
ghost use Rattle.script_text.specs.Reading.{texts, IsSentence, AreReadAs};

use crate::calls::call_of;
use crate::changes::{activate, appoint, survey};
use crate::operands::{built_members, built_replica};
use crate::stops::{arm, crash, inspect, reboot};
use events::Event;
use rc_base::NoMemory;
use std::alloc::Global;

// The event whose sentence the words are.
pub(crate) fn sentence(alloc: Global, words: &[&[u8]]) -> Result<Option<Event>, NoMemory>
    ensures { IfOk result (AreReadAs (texts words.now)) }
{
    let [verb, operands @ ..] = words else {
        return Ok(None);
    };
    event_of(alloc, verb, operands)
}

// The event of a first word and those after it. What is no form of its own is a client's call.
fn event_of(alloc: Global, verb: &[u8], operands: &[&[u8]]) -> Result<Option<Event>, NoMemory>
    ensures { IfOk result (AreReadAs (verb.now ∷ texts operands.now)) }
{
    match verb {
        verb if verb == b"boot".as_slice() => boot(alloc, operands),
        verb if verb == b"arm".as_slice() => Ok(arm(operands)),
        verb if verb == b"crash".as_slice() => Ok(crash(operands)),
        verb if verb == b"reboot".as_slice() => Ok(reboot(operands)),
        verb if verb == b"inspect".as_slice() => Ok(inspect(operands)),
        verb if verb == b"survey".as_slice() => survey(alloc, operands),
        verb if verb == b"appoint".as_slice() => appoint(alloc, operands),
        verb if verb == b"activate".as_slice() => activate(alloc, operands),
        _ => client(alloc, verb, operands),
    }
}

// `boot P MEMBERS`, from the words after the first.
fn boot(alloc: Global, operands: &[&[u8]]) -> Result<Option<Event>, NoMemory>
    ensures { IfOk result (AreReadAs (codes "boot" ∷ texts operands.now)) }
{
    let [p, members] = operands else {
        return Ok(None);
    };
    let (Some(p), Some(members)) = (built_replica(p), built_members(alloc, members)?) else {
        return Ok(None);
    };
    Ok(Some(Event::Boot(p, members)))
}

// `VERB R ..`: a client's call at R.
fn client(alloc: Global, verb: &[u8], operands: &[&[u8]]) -> Result<Option<Event>, NoMemory>
    ensures some { IfOk result (λ read. IfSome read (IsSentence (verb.now ∷ texts operands.now))) }
    ensures none { IfOk result (λ read. IfNone read
        ((r : ℕ) (call : CallValue) → IsSentence (verb.now ∷ texts operands.now) (Client r call) → ⊥)) }
{
    let [r, operands @ ..] = operands else {
        return Ok(None);
    };
    let (Some(r), Some(call)) = (built_replica(r), call_of(alloc, verb, operands)?) else {
        return Ok(None);
    };
    Ok(Some(Event::Client(r, call)))
}
