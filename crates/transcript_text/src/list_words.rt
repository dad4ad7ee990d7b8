ghost use Rattle.std.specs.Prelude.{◌≡◌, ◌&&◌, IfOk};
ghost use Rattle.script_text.specs.Reading.{texts};
ghost use Rattle.transcript_text.specs.Words.{is_row, is_row_word as is_row_text};
ghost use Rattle.transcript_text.specs.Forms as forms;
ghost use Rattle.transcript_text.specs.WordReading.{ReadsFields};

use crate::op_words::op_of;
use crate::word_error::{WordError, wrong};
use coll_model::{Ops, Words};
use rc_base::{Bytes, TxnId};
use script_text::words::{is_key_word, is_value_word, parts_of, txn};
use std::alloc::{AllocError, Global};

// `T OPS`: a transaction and its operations.
pub(crate) fn order(alloc: Global, words: &[&[u8]]) -> Result<(TxnId, Ops), WordError>
    ensures { ReadsFields (forms.first forms.txn forms.ops) (texts words.now) result }
{
    let [word, rest @ ..] = words else {
        return Err(wrong(words));
    };
    let Some(t) = txn(alloc, word)? else {
        return Err(wrong(words));
    };
    let ops = ops_of(alloc, rest)?;
    Ok((t, ops))
}

// Operations, one a word.
fn ops_of(alloc: Global, words: &[&[u8]]) -> Result<Ops, WordError>
    ensures { ReadsFields forms.ops (texts words.now) result }
{
    let mut ops = Ops::new(alloc);
    for (index, word) in words.iter().enumerate() {
        let Some(op) = op_of(alloc, word)? else {
            return Err(wrong(&words[index..]));
        };
        ops.push(op)?;
    }
    Ok(ops)
}

// The words of a row.
pub(crate) fn row_words(alloc: Global, words: &[&[u8]]) -> Result<Words, WordError>
    ensures { ReadsFields forms.row_words (texts words.now) result }
{
    let mut row = Words::new(alloc);
    for (index, word) in words.iter().enumerate() {
        if !is_row_word(alloc, word)? {
            return Err(wrong(&words[index..]));
        }
        row.push(Bytes::from_slice(alloc, word)?)?;
    }
    Ok(row)
}

// Whether it is a word of a row: a name, a kind or a value, or a key and its value.
fn is_row_word(alloc: Global, word: &[u8]) -> Result<bool, AllocError>
    ensures { IfOk result (λ is. is ≡ is_row_text word.now) }
{
    Ok(is_row_of_parts(&parts_of(alloc, b'=', word)?))
}

fn is_row_of_parts(parts: &[&[u8]]) -> bool
    ensures { result ≡ is_row (texts parts.now) }
{
    match parts {
        [value] => is_value_word(value),
        [key, value] => is_key_word(key) && is_value_word(value),
        _ => false,
    }
}
