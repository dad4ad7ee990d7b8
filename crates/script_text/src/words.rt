//! Words, and what they are read as: each is read exactly where it is the text of such a value.

ghost use Rattle.std.specs.Prelude.{◌≡◌, ◌==◌, ◌<◌, ◌^◌, ℕ, List, map, decimal, IsTrue, IfOk, IfSome, IfNone};
ghost use Rattle.std.specs.List.{slice_split, list_all};
ghost use Rattle.rc_base.specs.declared.ids.Epoch.{Epoch as EpochValue};
ghost use Rattle.rc_base.specs.declared.ids.TxnId.{TxnId};
ghost use Rattle.rc_base.specs.Names as names;
ghost use Rattle.script_text.specs.Letters as letters;
ghost use Rattle.script_text.specs.Sentence.{epoch_text, txn_text, IsEpoch, IsTxn};
ghost use Rattle.script_text.specs.Reading.{texts, epoch_parts, txn_parts};

use itoa::Buffer;
use rc_base::{Bytes, Epoch, Name, NoMemory, ReplicaId, TxnId, is_name};
use std::alloc::{AllocError, Global};

/// The parts of a text, between the bytes that separate them.
///
/// # Errors
/// Out of memory.
pub fn parts_of(alloc: Global, separator: u8, text: &[u8]) -> Result<Vec<&[u8]>, AllocError>
    ensures { IfOk result (λ v. texts v.items ≡ slice_split (λ b. b == separator) text.now) }
{
    text.split(|b| *b == separator).collect(alloc)
}

/// The number of a decimal text without leading zeros, where it is below 2^64.
pub fn number(word: &[u8]) -> Option<u64>
    ensures some { IfSome result (λ n. (n < 2 ^ 64) × (word.now ≡ decimal n)) }
    ensures none { IfNone result ((n : ℕ) → n < 2 ^ 64 → word.now ≡ decimal n → ⊥) }
{
    let Ok(text) = std::str::from_utf8(word) else {
        return None;
    };
    let Ok(n) = text.parse::<u64>() else {
        return None;
    };
    // Of the texts that are read as this number, one is printed.
    let mut buffer = Buffer::new();
    if buffer.format(n) == text {
        Some(n)
    } else {
        None
    }
}

// The number of such a text, where it is below 2^32.
pub(crate) fn short_number(word: &[u8]) -> Option<u32>
    ensures some { IfSome result (λ n. (n < 2 ^ 32) × (word.now ≡ decimal n)) }
    ensures none { IfNone result ((n : ℕ) → n < 2 ^ 32 → word.now ≡ decimal n → ⊥) }
{
    let n = number(word)?;
    u32::try_from(n).ok()
}

/// The replica of a text: its number, 0 to 8.
pub fn replica(word: &[u8]) -> Option<ReplicaId>
    ensures some { IfSome result (λ r. (r < 9) × (word.now ≡ decimal r)) }
    ensures none { IfNone result ((r : ℕ) → r < 9 → word.now ≡ decimal r → ⊥) }
{
    let n = number(word)?;
    ReplicaId::new(u8::try_from(n).ok()?)
}

/// The epoch of a text.
///
/// # Errors
/// Out of memory.
pub fn epoch(alloc: Global, word: &[u8]) -> Result<Option<Epoch>, AllocError>
    ensures some { IfOk result (λ read. IfSome read (λ e. IsEpoch e × (word.now ≡ epoch_text e))) }
    ensures none { IfOk result (λ read. IfNone read ((e : EpochValue) → IsEpoch e → word.now ≡ epoch_text e → ⊥)) }
{
    Ok(epoch_of_parts(&parts_of(alloc, b'.', word)?))
}

// The epoch of a text's parts.
fn epoch_of_parts(parts: &[&[u8]]) -> Option<Epoch>
    ensures some { IfSome result (λ e. IsEpoch e × (texts parts.now ≡ epoch_parts e)) }
    ensures none { IfNone result ((e : EpochValue) → IsEpoch e → texts parts.now ≡ epoch_parts e → ⊥) }
{
    let [loss, count] = parts else {
        return None;
    };
    Some(Epoch {
        loss: short_number(loss)?,
        number: short_number(count)?,
    })
}

/// The transaction of a text.
///
/// # Errors
/// Out of memory.
pub fn txn(alloc: Global, word: &[u8]) -> Result<Option<TxnId>, AllocError>
    ensures some { IfOk result (λ read. IfSome read (λ t. IsTxn t × (word.now ≡ txn_text t))) }
    ensures none { IfOk result (λ read. IfNone read ((t : TxnId) → IsTxn t → word.now ≡ txn_text t → ⊥)) }
{
    Ok(txn_of_parts(&parts_of(alloc, b'.', word)?))
}

// The transaction of a text's parts.
fn txn_of_parts(parts: &[&[u8]]) -> Option<TxnId>
    ensures some { IfSome result (λ t. IsTxn t × (texts parts.now ≡ txn_parts t)) }
    ensures none { IfNone result ((t : TxnId) → IsTxn t → texts parts.now ≡ txn_parts t → ⊥) }
{
    let [loss, count, n] = parts else {
        return None;
    };
    let epoch = Epoch {
        loss: short_number(loss)?,
        number: short_number(count)?,
    };
    let n = number(n)?;
    Some(TxnId { epoch, n })
}

/// The name of a word, where it is one.
///
/// # Errors
/// Out of memory.
pub fn name_of(alloc: Global, word: &[u8]) -> Result<Option<Name>, NoMemory>
    ensures some { IfOk result (λ read. IfSome read (λ name. IsTrue (names.is_name name) × (word.now ≡ name))) }
    ensures none { IfOk result (λ read. IfNone read (IsTrue (names.is_name word.now) → ⊥)) }
{
    if !is_name(word) {
        return Ok(None);
    }
    Ok(Some(Name::from_slice(alloc, word)?))
}

/// The key of a word, where it is one.
///
/// # Errors
/// Out of memory.
pub fn key_of(alloc: Global, word: &[u8]) -> Result<Option<Bytes>, NoMemory>
    ensures some { IfOk result (λ read. IfSome read (λ key. IsTrue (letters.is_key_word key) × (word.now ≡ key))) }
    ensures none { IfOk result (λ read. IfNone read (IsTrue (letters.is_key_word word.now) → ⊥)) }
{
    if !is_key_word(word) {
        return Ok(None);
    }
    Ok(Some(Bytes::from_slice(alloc, word)?))
}

/// The value of a word, where it is one.
///
/// # Errors
/// Out of memory.
pub fn value_of(alloc: Global, word: &[u8]) -> Result<Option<Bytes>, NoMemory>
    ensures some { IfOk result (λ read. IfSome read (λ value. IsTrue (letters.is_value_word value) × (word.now ≡ value))) }
    ensures none { IfOk result (λ read. IfNone read (IsTrue (letters.is_value_word word.now) → ⊥)) }
{
    if !is_value_word(word) {
        return Ok(None);
    }
    Ok(Some(Bytes::from_slice(alloc, word)?))
}

/// Whether it is a key's word: 1 to 128 letters of a key.
pub fn is_key_word(word: &[u8]) -> bool
    ensures { result ≡ letters.is_key_word word.now }
{
    !word.is_empty() && word.len() <= 128 && has_key_letters(word)
}

/// Whether it is a value's word: 1 to 1,024 letters of a key.
pub fn is_value_word(word: &[u8]) -> bool
    ensures { result ≡ letters.is_value_word word.now }
{
    !word.is_empty() && word.len() <= 1024 && has_key_letters(word)
}

fn has_key_letters(word: &[u8]) -> bool
    ensures { result ≡ list_all letters.is_key_letter word.now }
{
    word.iter().all(|letter| is_key_letter(*letter))
}

fn is_key_letter(letter: u8) -> bool
    ensures { result ≡ letters.is_key_letter letter }
{
    letter.is_ascii_alphanumeric() || matches!(letter, b'_' | b'-' | b'.' | b'/')
}
