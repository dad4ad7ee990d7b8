ghost use Rattle.std.specs.Prelude.{◌≡◌, ◌∷◌, ◌+◌, ◌≤◌, ℕ, length, min, codes, IfOk, IsErrOf};
ghost use Rattle.log_records.specs.declared.error.CodecError.TheVariants as errors;
ghost use Rattle.script_text.specs.Reading.{texts};
ghost use Rattle.transcript_text.specs.Lines.{words_of};
ghost use Rattle.order_machine.specs.declared.observation.Observation.{Observation as ObservationValue};
ghost use Rattle.transcript_text.specs.Said.{IsSaid, Tells};
ghost use Rattle.transcript_text.specs.ReadBack.{line_words, IsLine, place_after, IsWrongAt, IsReadAs};
ghost use Rattle.transcript_text.specs.Forms.{form_word, cause_word};
ghost use Rattle.transcript_text.specs.WordReading.{Reads};

use crate::cause::{Cause, cause_of};
use crate::form::{Form, form_of};
use crate::list_words::{order, row_words};
use crate::operands::{
    nothing, one_part, one_replica, one_txn, one_value, replica_and_end, replica_and_number,
    two_epochs,
};
use crate::word_error::{WordError, wrong};
use log_records::CodecError;
use order_machine::Observation;
use script_text::words::{number, parts_of};
use std::alloc::Global;

/// The number and the observation of a line, without its LF.
///
/// # Errors
/// `Bad` exactly where the line isn't the text of a number and an observation, with the place where its first wrong word
/// begins, which is its end where it lacks a word; `NoMemory`.
pub fn read_obs(alloc: Global, line: &[u8]) -> Result<(u64, Observation), CodecError>
    // What is read is written so, each byte of it.
    ensures found { IfOk result (λ read. Tells line.now read.0 read.1) }
    // What is written so is read.
    ensures only { (n : ℕ) (o : ObservationValue) → Tells line.now n o → IsReadAs n o result }
    // The place is that of the first word with which no line goes on.
    ensures place { (at : ℕ) → IsErrOf result (errors.Bad at) → IsWrongAt line.now at }
{
    let words = parts_of(alloc, b' ', line)?;
    match numbered(alloc, &words) {
        Ok(read) => Ok(read),
        Err(WordError::Wrong { left }) => {
            let front = &words[..words.len() - left];
            Err(CodecError::Bad {
                at: place_of(line, front),
            })
        }
        Err(WordError::NoMemory) => Err(CodecError::NoMemory),
    }
}

// The place after the first words of a line, which is no further than its end.
fn place_of(line: &[u8], front: &[&[u8]]) -> u64
    requires { place_after (texts front.now) ≤ length line.now + 1 }
    ensures { result ≡ min (place_after (texts front.now)) (length line.now) }
{
    let mut place = 0;
    for word in front {
        place += word.len() + 1;
    }
    place.min(line.len()) as u64
}

// The number and the observation of a line's words.
fn numbered(alloc: Global, words: &[&[u8]]) -> Result<(u64, Observation), WordError>
    ensures { Reads line_words IsLine (texts words.now) result }
{
    let [word, rest @ ..] = words else {
        return Err(wrong(words));
    };
    let Some(n) = number(word) else {
        return Err(wrong(words));
    };
    let observation = observation(alloc, rest)?;
    Ok((n, observation))
}

// The observation of the words after the number.
fn observation(alloc: Global, words: &[&[u8]]) -> Result<Observation, WordError>
    ensures { Reads words_of IsSaid (texts words.now) result }
{
    let [word, rest @ ..] = words else {
        return Err(wrong(words));
    };
    let Some(form) = form_of(word) else {
        return Err(wrong(words));
    };
    of_form(alloc, form, rest)
}

// The observation of a form and the words after it. Each form of line is one arm.
fn of_form(alloc: Global, form: Form, words: &[&[u8]]) -> Result<Observation, WordError>
    ensures { Reads words_of IsSaid (form_word form ∷ texts words.now) result }
{
    Ok(match form {
        Form::Up => Observation::Up(one_replica(words)?),
        Form::Order => {
            let (t, ops) = order(alloc, words)?;
            Observation::Order(t, ops)
        }
        Form::View => {
            let (r, n) = replica_and_number(words)?;
            Observation::View(r, n)
        }
        Form::Active => Observation::Active(one_replica(words)?),
        Form::Committed => Observation::Committed(one_txn(alloc, words)?),
        Form::Txn => Observation::Txn(one_txn(alloc, words)?),
        Form::Done => {
            nothing(words)?;
            Observation::Done
        }
        Form::Refused => Observation::Refused(one_part(words)?),
        Form::Down => Observation::Down(one_replica(words)?),
        Form::NotActive => Observation::NotActive(one_replica(words)?),
        Form::Ended => Observation::Ended(one_txn(alloc, words)?),
        Form::Locked => Observation::Locked(one_txn(alloc, words)?),
        Form::True => {
            nothing(words)?;
            Observation::True
        }
        Form::False => {
            nothing(words)?;
            Observation::False
        }
        Form::Value => Observation::Value(one_value(alloc, words)?),
        Form::Missing => {
            nothing(words)?;
            Observation::Missing
        }
        Form::Absent => {
            nothing(words)?;
            Observation::Absent
        }
        Form::WrongKind => {
            nothing(words)?;
            Observation::WrongKind
        }
        Form::Fault => Observation::Fault(one_replica(words)?),
        Form::Ignored => ignored(alloc, words)?,
        Form::Progress => {
            let (r, (e, last)) = replica_and_end(alloc, words)?;
            Observation::Progress(r, e, last)
        }
        Form::State => {
            let (r, k) = replica_and_number(words)?;
            Observation::State(r, k)
        }
        Form::Rows => Observation::Rows(row_words(alloc, words)?),
    })
}

// The observation of `ignored` and the words after it, the first of which tells the cause.
fn ignored(alloc: Global, words: &[&[u8]]) -> Result<Observation, WordError>
    ensures { Reads words_of IsSaid (codes "ignored" ∷ texts words.now) result }
{
    let [word, rest @ ..] = words else {
        return Err(wrong(words));
    };
    let Some(cause) = cause_of(word) else {
        return Err(wrong(words));
    };
    of_cause(alloc, cause, rest)
}

// The observation of `ignored`, a cause and the words after it. Each cause is one arm.
fn of_cause(alloc: Global, cause: Cause, words: &[&[u8]]) -> Result<Observation, WordError>
    ensures { Reads words_of IsSaid (codes "ignored" ∷ cause_word cause ∷ texts words.now) result }
{
    Ok(match cause {
        Cause::Up => {
            nothing(words)?;
            Observation::IgnoredUp
        }
        Cause::OldEpoch => {
            let (fence, e) = two_epochs(alloc, words)?;
            Observation::IgnoredOldEpoch(fence, e)
        }
    })
}
