ghost use Rattle.std.specs.Prelude.{◌≡◌, ◌∷◌, codes, IfOk, IfSome, IfNone};
ghost use Rattle.coll_model.specs.declared.op.Op.{Op as OpValue};
ghost use Rattle.coll_model.specs.declared.op.Kind.{Kind as KindValue};
ghost use Rattle.script_text.specs.Reading.{texts};
ghost use Rattle.coll_model.specs.Rows.{kind_word};
ghost use Rattle.transcript_text.specs.Words.{op_text};
ghost use Rattle.transcript_text.specs.Words.{IsSaidOp};
ghost use Rattle.transcript_text.specs.WordReading.{AreReadAsOp};

use coll_model::{Kind, Op};
use rc_base::NoMemory;
use script_text::words::{key_of, name_of, parts_of, value_of};
use std::alloc::Global;

// The operation of a word.
pub(crate) fn op_of(alloc: Global, word: &[u8]) -> Result<Option<Op>, NoMemory>
    ensures some { IfOk result (λ read. IfSome read (λ op. IsSaidOp op × (word.now ≡ op_text op))) }
    ensures none { IfOk result (λ read. IfNone read ((op : OpValue) → IsSaidOp op → word.now ≡ op_text op → ⊥)) }
{
    let parts = parts_of(alloc, b':', word)?;
    op_of_parts(alloc, &parts)
}

// The operation of a word's parts.
fn op_of_parts(alloc: Global, parts: &[&[u8]]) -> Result<Option<Op>, NoMemory>
    ensures { IfOk result (AreReadAsOp (texts parts.now)) }
{
    let [verb, parts @ ..] = parts else {
        return Ok(None);
    };
    op_of_verb(alloc, verb, parts)
}

// The operation of a word's first part and those after it.
fn op_of_verb(alloc: Global, verb: &[u8], parts: &[&[u8]]) -> Result<Option<Op>, NoMemory>
    ensures { IfOk result (AreReadAsOp (verb.now ∷ texts parts.now)) }
{
    match verb {
        verb if verb == b"make".as_slice() => make(alloc, parts),
        verb if verb == b"drop".as_slice() => unmake(alloc, parts),
        verb if verb == b"put".as_slice() => put(alloc, parts),
        verb if verb == b"del".as_slice() => del(alloc, parts),
        verb if verb == b"push".as_slice() => push(alloc, parts),
        verb if verb == b"pop".as_slice() => pop(alloc, parts),
        _ => Ok(None),
    }
}

// `make:NAME:KIND`, from the parts after the first, as are the others here.
fn make(alloc: Global, parts: &[&[u8]]) -> Result<Option<Op>, NoMemory>
    ensures { IfOk result (AreReadAsOp (codes "make" ∷ texts parts.now)) }
{
    let [name, kind] = parts else {
        return Ok(None);
    };
    let (Some(name), Some(kind)) = (name_of(alloc, name)?, kind_of(kind)) else {
        return Ok(None);
    };
    Ok(Some(Op::Make(name, kind)))
}

// `drop:NAME`.
fn unmake(alloc: Global, parts: &[&[u8]]) -> Result<Option<Op>, NoMemory>
    ensures { IfOk result (AreReadAsOp (codes "drop" ∷ texts parts.now)) }
{
    let [name] = parts else {
        return Ok(None);
    };
    let Some(name) = name_of(alloc, name)? else {
        return Ok(None);
    };
    Ok(Some(Op::Unmake(name)))
}

// `put:NAME:KEY:VALUE`.
fn put(alloc: Global, parts: &[&[u8]]) -> Result<Option<Op>, NoMemory>
    ensures { IfOk result (AreReadAsOp (codes "put" ∷ texts parts.now)) }
{
    let [name, key, value] = parts else {
        return Ok(None);
    };
    let (Some(name), Some(key)) = (name_of(alloc, name)?, key_of(alloc, key)?) else {
        return Ok(None);
    };
    let Some(value) = value_of(alloc, value)? else {
        return Ok(None);
    };
    Ok(Some(Op::Put(name, key, value)))
}

// `del:NAME:KEY`.
fn del(alloc: Global, parts: &[&[u8]]) -> Result<Option<Op>, NoMemory>
    ensures { IfOk result (AreReadAsOp (codes "del" ∷ texts parts.now)) }
{
    let [name, key] = parts else {
        return Ok(None);
    };
    let (Some(name), Some(key)) = (name_of(alloc, name)?, key_of(alloc, key)?) else {
        return Ok(None);
    };
    Ok(Some(Op::Del(name, key)))
}

// `push:NAME:VALUE`.
fn push(alloc: Global, parts: &[&[u8]]) -> Result<Option<Op>, NoMemory>
    ensures { IfOk result (AreReadAsOp (codes "push" ∷ texts parts.now)) }
{
    let [name, value] = parts else {
        return Ok(None);
    };
    let (Some(name), Some(value)) = (name_of(alloc, name)?, value_of(alloc, value)?) else {
        return Ok(None);
    };
    Ok(Some(Op::Push(name, value)))
}

// `pop:NAME`.
fn pop(alloc: Global, parts: &[&[u8]]) -> Result<Option<Op>, NoMemory>
    ensures { IfOk result (AreReadAsOp (codes "pop" ∷ texts parts.now)) }
{
    let [name] = parts else {
        return Ok(None);
    };
    let Some(name) = name_of(alloc, name)? else {
        return Ok(None);
    };
    Ok(Some(Op::Pop(name)))
}

// The kind of a word.
fn kind_of(word: &[u8]) -> Option<Kind>
    ensures some { IfSome result (λ kind. word.now ≡ kind_word kind) }
    ensures none { IfNone result ((kind : KindValue) → word.now ≡ kind_word kind → ⊥) }
{
    match word {
        word if word == b"dict".as_slice() => Some(Kind::Dict),
        word if word == b"queue".as_slice() => Some(Kind::Queue),
        _ => None,
    }
}
