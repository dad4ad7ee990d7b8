ghost use Rattle.std.specs.Prelude.{◌≡◌, ℕ, List, [], ◌∷◌, codes, IfOk, IfSome, IfNone};
ghost use Rattle.rc_base.specs.declared.ids.TxnId.{TxnId};
ghost use Rattle.events.specs.declared.call.Call.TheVariants.{OnKey};
ghost use Rattle.events.specs.declared.call.KeyCall.{KeyCall as KeyCallValue};
ghost use Rattle.script_text.specs.Reading.{texts, IsCall, AreReadAsCall, AreReadAsKeyCall};

use crate::operands::{at_key, at_name, built_kind, built_txn};
use crate::words::value_of;
use events::{Call, KeyCall};
use rc_base::NoMemory;
use std::alloc::Global;

// The call of a sentence's first word and of those after its replica. What is no form of its own is a call on a key.
pub(crate) fn call_of(
    alloc: Global,
    verb: &[u8],
    operands: &[&[u8]],
) -> Result<Option<Call>, NoMemory>
    ensures { IfOk result (AreReadAsCall verb.now (texts operands.now)) }
{
    match verb {
        verb if verb == b"begin".as_slice() => Ok(begin(operands)),
        verb if verb == b"make".as_slice() => make(alloc, operands),
        verb if verb == b"commit".as_slice() => commit(alloc, operands),
        verb if verb == b"abort".as_slice() => abort(alloc, operands),
        _ => on_key(alloc, verb, operands),
    }
}

// `begin R`.
fn begin(operands: &[&[u8]]) -> Option<Call>
    ensures { AreReadAsCall (codes "begin") (texts operands.now) result }
{
    match operands {
        [] => Some(Call::Begin),
        _ => None,
    }
}

// `make R T NAME KIND`.
fn make(alloc: Global, operands: &[&[u8]]) -> Result<Option<Call>, NoMemory>
    ensures { IfOk result (AreReadAsCall (codes "make") (texts operands.now)) }
{
    let [t, name, kind] = operands else {
        return Ok(None);
    };
    let (Some((t, name)), Some(kind)) = (at_name(alloc, t, name)?, built_kind(kind)) else {
        return Ok(None);
    };
    Ok(Some(Call::Make(t, name, kind)))
}

// `VERB R T NAME KEY`, and a value where the verb gives one: a call on a key.
fn on_key(alloc: Global, verb: &[u8], operands: &[&[u8]]) -> Result<Option<Call>, NoMemory>
    ensures some { IfOk result (λ read. IfSome read (IsCall verb.now (texts operands.now))) }
    ensures none { IfOk result (λ read. IfNone read
        ((t : TxnId) (name key : List ℕ) (call : KeyCallValue) → IsCall verb.now (texts operands.now) (OnKey t name key call) → ⊥)) }
{
    let [t, name, key, values @ ..] = operands else {
        return Ok(None);
    };
    let Some((t, name, key)) = at_key(alloc, t, name, key)? else {
        return Ok(None);
    };
    let Some(call) = key_call(alloc, verb, values)? else {
        return Ok(None);
    };
    Ok(Some(Call::OnKey(t, name, key, call)))
}

// What is asked of a key, by the sentence's first word and those after the key.
fn key_call(alloc: Global, verb: &[u8], values: &[&[u8]]) -> Result<Option<KeyCall>, NoMemory>
    ensures { IfOk result (AreReadAsKeyCall verb.now (texts values.now)) }
{
    match values {
        [] => Ok(without_value(verb)),
        [value] => with_value(alloc, verb, value),
        _ => Ok(None),
    }
}

fn without_value(verb: &[u8]) -> Option<KeyCall>
    ensures { AreReadAsKeyCall verb.now [] result }
{
    match verb {
        verb if verb == b"get".as_slice() => Some(KeyCall::Get),
        verb if verb == b"getu".as_slice() => Some(KeyCall::GetForUpdate),
        verb if verb == b"del".as_slice() => Some(KeyCall::Delete),
        _ => None,
    }
}

fn with_value(alloc: Global, verb: &[u8], value: &[u8]) -> Result<Option<KeyCall>, NoMemory>
    ensures { IfOk result (AreReadAsKeyCall verb.now (value.now ∷ [])) }
{
    let Some(value) = value_of(alloc, value)? else {
        return Ok(None);
    };
    Ok(match verb {
        verb if verb == b"set".as_slice() => Some(KeyCall::Set(value)),
        verb if verb == b"add".as_slice() => Some(KeyCall::Add(value)),
        _ => None,
    })
}

// `commit R T`.
fn commit(alloc: Global, operands: &[&[u8]]) -> Result<Option<Call>, NoMemory>
    ensures { IfOk result (AreReadAsCall (codes "commit") (texts operands.now)) }
{
    let [t] = operands else {
        return Ok(None);
    };
    let Some(t) = built_txn(alloc, t)? else {
        return Ok(None);
    };
    Ok(Some(Call::Commit(t)))
}

// `abort R T`.
fn abort(alloc: Global, operands: &[&[u8]]) -> Result<Option<Call>, NoMemory>
    ensures { IfOk result (AreReadAsCall (codes "abort") (texts operands.now)) }
{
    let [t] = operands else {
        return Ok(None);
    };
    let Some(t) = built_txn(alloc, t)? else {
        return Ok(None);
    };
    Ok(Some(Call::Abort(t)))
}
