ghost use Rattle.std.specs.Prelude.{◌≡◌, ◌<◌, ◌^◌, ℕ, decimal, IfSome, IfNone};
ghost use Rattle.script_text.specs.Reading.{texts};
ghost use Rattle.transcript_text.specs.Forms as forms;
ghost use Rattle.transcript_text.specs.WordReading.{ReadsFields};

use crate::word_error::{WordError, wrong};
use rc_base::{Bytes, Epoch, ReplicaId, TxnId};
use script_text::words::{epoch, number, replica, txn, value_of};
use std::alloc::Global;

// Nothing: there is no word.
pub(crate) fn nothing(words: &[&[u8]]) -> Result<(), WordError>
    ensures { ReadsFields forms.nothing (texts words.now) result }
{
    if words.is_empty() {
        Ok(())
    } else {
        Err(wrong(words))
    }
}

// `R`, a replica.
pub(crate) fn one_replica(words: &[&[u8]]) -> Result<ReplicaId, WordError>
    ensures { ReadsFields (forms.one forms.replica) (texts words.now) result }
{
    let [word, rest @ ..] = words else {
        return Err(wrong(words));
    };
    let Some(r) = replica(word) else {
        return Err(wrong(words));
    };
    nothing(rest)?;
    Ok(r)
}

// `N`, a number.
fn one_number(words: &[&[u8]]) -> Result<u64, WordError>
    ensures { ReadsFields (forms.one forms.number) (texts words.now) result }
{
    let [word, rest @ ..] = words else {
        return Err(wrong(words));
    };
    let Some(n) = number(word) else {
        return Err(wrong(words));
    };
    nothing(rest)?;
    Ok(n)
}

// `PART`, the part of a rule.
pub(crate) fn one_part(words: &[&[u8]]) -> Result<u8, WordError>
    ensures { ReadsFields (forms.one forms.part) (texts words.now) result }
{
    let [word, rest @ ..] = words else {
        return Err(wrong(words));
    };
    let Some(part) = part_of(word) else {
        return Err(wrong(words));
    };
    nothing(rest)?;
    Ok(part)
}

fn part_of(word: &[u8]) -> Option<u8>
    ensures some { IfSome result (λ n. (n < 2 ^ 8) × (word.now ≡ decimal n)) }
    ensures none { IfNone result ((n : ℕ) → n < 2 ^ 8 → word.now ≡ decimal n → ⊥) }
{
    let n = number(word)?;
    u8::try_from(n).ok()
}

// `R N`, a replica and a number.
pub(crate) fn replica_and_number(words: &[&[u8]]) -> Result<(ReplicaId, u64), WordError>
    ensures { ReadsFields (forms.first forms.replica (forms.one forms.number)) (texts words.now) result }
{
    let [word, rest @ ..] = words else {
        return Err(wrong(words));
    };
    let Some(r) = replica(word) else {
        return Err(wrong(words));
    };
    let n = one_number(rest)?;
    Ok((r, n))
}

// `E`, an epoch.
fn one_epoch(alloc: Global, words: &[&[u8]]) -> Result<Epoch, WordError>
    ensures { ReadsFields (forms.one forms.epoch) (texts words.now) result }
{
    let [word, rest @ ..] = words else {
        return Err(wrong(words));
    };
    let Some(e) = epoch(alloc, word)? else {
        return Err(wrong(words));
    };
    nothing(rest)?;
    Ok(e)
}

// `F E`, two epochs.
pub(crate) fn two_epochs(alloc: Global, words: &[&[u8]]) -> Result<(Epoch, Epoch), WordError>
    ensures { ReadsFields (forms.first forms.epoch (forms.one forms.epoch)) (texts words.now) result }
{
    let [word, rest @ ..] = words else {
        return Err(wrong(words));
    };
    let Some(fence) = epoch(alloc, word)? else {
        return Err(wrong(words));
    };
    let e = one_epoch(alloc, rest)?;
    Ok((fence, e))
}

// `E L`, the epoch and the position of a log's last record.
fn log_end(alloc: Global, words: &[&[u8]]) -> Result<(Epoch, u64), WordError>
    ensures { ReadsFields (forms.first forms.epoch (forms.one forms.number)) (texts words.now) result }
{
    let [word, rest @ ..] = words else {
        return Err(wrong(words));
    };
    let Some(e) = epoch(alloc, word)? else {
        return Err(wrong(words));
    };
    let last = one_number(rest)?;
    Ok((e, last))
}

// `R E L`, a replica and the end of its log.
pub(crate) fn replica_and_end(
    alloc: Global,
    words: &[&[u8]],
) -> Result<(ReplicaId, (Epoch, u64)), WordError>
    ensures { ReadsFields (forms.first forms.replica (forms.first forms.epoch (forms.one forms.number))) (texts words.now) result }
{
    let [word, rest @ ..] = words else {
        return Err(wrong(words));
    };
    let Some(r) = replica(word) else {
        return Err(wrong(words));
    };
    let end = log_end(alloc, rest)?;
    Ok((r, end))
}

// `T`, a transaction.
pub(crate) fn one_txn(alloc: Global, words: &[&[u8]]) -> Result<TxnId, WordError>
    ensures { ReadsFields (forms.one forms.txn) (texts words.now) result }
{
    let [word, rest @ ..] = words else {
        return Err(wrong(words));
    };
    let Some(t) = txn(alloc, word)? else {
        return Err(wrong(words));
    };
    nothing(rest)?;
    Ok(t)
}

// `VALUE`.
pub(crate) fn one_value(alloc: Global, words: &[&[u8]]) -> Result<Bytes, WordError>
    ensures { ReadsFields (forms.one forms.value) (texts words.now) result }
{
    let [word, rest @ ..] = words else {
        return Err(wrong(words));
    };
    let Some(value) = value_of(alloc, word)? else {
        return Err(wrong(words));
    };
    nothing(rest)?;
    Ok(value)
}
