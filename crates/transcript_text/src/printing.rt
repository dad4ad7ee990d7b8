ghost use Rattle.std.specs.Prelude.{◌≡◌, ◌++◌, ◌∷◌, [], OnOk, OnErr, codes, decimal, flat_map};
ghost use Rattle.std.specs.Io.{StartsWith};
ghost use Rattle.script_text.specs.Sentence.{epoch_text, txn_text};
ghost use Rattle.coll_model.specs.Rows.{kind_word};
ghost use Rattle.transcript_text.specs.Words.{op_text};
ghost use Rattle.transcript_text.specs.Lines.{line_text, words_of};

use coll_model::{Kind, Op};
use itoa::Buffer;
use order_machine::Observation;
use rc_base::{Bytes, Epoch, NoMemory, ReplicaId, TxnId};

// what stands before each word of a line
const SPACE: u8 = b' ';

// what stands before each further number of a transaction
const STOP: u8 = b'.';

// what stands before each further part of an operation
const COLON: u8 = b':';

/// Writes the line of an observation after `out`, without an LF.
///
/// # Errors
/// `NoMemory`, and then `out` is as before.
pub fn print(number: u64, observation: &Observation, out: &mut Vec<u8>) -> Result<(), NoMemory>
    ensures ok { OnOk result (out.new.items ≡ out.old.items ++ line_text number observation.now) }
    ensures err { OnErr result (out.new.items ≡ out.old.items) }
{
    let before = out.len();
    let written = write_line(number, observation, out);
    if written.is_err() {
        out.truncate(before);
    }
    written
}

// The line. At NoMemory a part of it may stand after `out`, as with each of these.
fn write_line(number: u64, observation: &Observation, out: &mut Vec<u8>) -> Result<(), NoMemory>
    ensures ok { OnOk result (out.new.items ≡ out.old.items ++ line_text number observation.now) }
    ensures kept { StartsWith out.new.items out.old.items }
{
    write_digits(number, out)?;
    write_words(observation, out)
}

// The words of the line, each after a space. Each form of line is one arm.
fn write_words(observation: &Observation, out: &mut Vec<u8>) -> Result<(), NoMemory>
    ensures ok { OnOk result (out.new.items ≡ out.old.items ++ flat_map (λ word. SPACE ∷ word) (words_of observation.now)) }
    ensures kept { StartsWith out.new.items out.old.items }
{
    match observation {
        Observation::Up(r) => write_with_replica(b"up", *r, out),
        Observation::Order(t, ops) => {
            write_with_txn(b"order", t, out)?;
            write_ops(ops.as_slice(), out)
        }
        Observation::View(r, n) => {
            write_with_replica(b"view", *r, out)?;
            write_number(SPACE, *n, out)
        }
        Observation::Active(r) => write_with_replica(b"active", *r, out),
        Observation::Committed(t) => write_with_txn(b"committed", t, out),
        Observation::Txn(t) => write_with_txn(b"txn", t, out),
        Observation::Done => write_word(SPACE, b"ok", out),
        Observation::Refused(part) => {
            write_word(SPACE, b"refused", out)?;
            write_number(SPACE, u64::from(*part), out)
        }
        Observation::Down(r) => write_with_replica(b"down", *r, out),
        Observation::NotActive(r) => write_with_replica(b"notactive", *r, out),
        Observation::Ended(t) => write_with_txn(b"ended", t, out),
        Observation::Locked(t) => write_with_txn(b"locked", t, out),
        Observation::True => write_word(SPACE, b"true", out),
        Observation::False => write_word(SPACE, b"false", out),
        Observation::Value(value) => {
            write_word(SPACE, b"value", out)?;
            write_word(SPACE, value.as_slice(), out)
        }
        Observation::Missing => write_word(SPACE, b"none", out),
        Observation::Absent => write_word(SPACE, b"absent", out),
        Observation::WrongKind => write_word(SPACE, b"wrongkind", out),
        Observation::Fault(r) => write_with_replica(b"fault", *r, out),
        Observation::IgnoredUp => {
            write_word(SPACE, b"ignored", out)?;
            write_word(SPACE, b"up", out)
        }
        Observation::IgnoredOldEpoch(fence, e) => {
            write_word(SPACE, b"ignored", out)?;
            write_word(SPACE, b"oldepoch", out)?;
            write_epoch(*fence, out)?;
            write_epoch(*e, out)
        }
        Observation::Progress(r, e, last) => {
            write_with_replica(b"progress", *r, out)?;
            write_epoch(*e, out)?;
            write_number(SPACE, *last, out)
        }
        Observation::State(r, k) => {
            write_with_replica(b"state", *r, out)?;
            write_number(SPACE, *k, out)
        }
        Observation::Rows(words) => {
            write_word(SPACE, b"rows", out)?;
            write_each(words.as_slice(), out)
        }
    }
}

// words, each after a space
fn write_each(words: &[Bytes], out: &mut Vec<u8>) -> Result<(), NoMemory>
    ensures ok { OnOk result (out.new.items ≡ out.old.items ++ flat_map (λ word. SPACE ∷ word) words.now) }
    ensures kept { StartsWith out.new.items out.old.items }
{
    for word in words {
        write_word(SPACE, word.as_slice(), out)?;
    }
    Ok(())
}

// a word and a replica
fn write_with_replica(word: &[u8], r: ReplicaId, out: &mut Vec<u8>) -> Result<(), NoMemory>
    ensures ok { OnOk result (out.new.items ≡ out.old.items ++ SPACE ∷ (word.now ++ SPACE ∷ decimal r)) }
    ensures kept { StartsWith out.new.items out.old.items }
{
    write_word(SPACE, word, out)?;
    write_number(SPACE, u64::from(r.number()), out)
}

// a word and a transaction
fn write_with_txn(word: &[u8], t: &TxnId, out: &mut Vec<u8>) -> Result<(), NoMemory>
    ensures ok { OnOk result (out.new.items ≡ out.old.items ++ SPACE ∷ (word.now ++ SPACE ∷ txn_text t.now)) }
    ensures kept { StartsWith out.new.items out.old.items }
{
    write_word(SPACE, word, out)?;
    write_epoch(t.epoch, out)?;
    write_number(STOP, t.n, out)
}

// an epoch after a space
fn write_epoch(e: Epoch, out: &mut Vec<u8>) -> Result<(), NoMemory>
    ensures ok { OnOk result (out.new.items ≡ out.old.items ++ SPACE ∷ epoch_text e) }
    ensures kept { StartsWith out.new.items out.old.items }
{
    write_number(SPACE, u64::from(e.loss), out)?;
    write_number(STOP, u64::from(e.number), out)
}

// operations, each after a space
fn write_ops(ops: &[Op], out: &mut Vec<u8>) -> Result<(), NoMemory>
    ensures ok { OnOk result (out.new.items ≡ out.old.items ++ flat_map (λ op. SPACE ∷ op_text op) ops.now) }
    ensures kept { StartsWith out.new.items out.old.items }
{
    for op in ops {
        write_op(op, out)?;
    }
    Ok(())
}

fn write_op(op: &Op, out: &mut Vec<u8>) -> Result<(), NoMemory>
    ensures ok { OnOk result (out.new.items ≡ out.old.items ++ SPACE ∷ op_text op.now) }
    ensures kept { StartsWith out.new.items out.old.items }
{
    match op {
        Op::Make(name, kind) => {
            write_named(b"make", name.as_slice(), out)?;
            write_kind(*kind, out)
        }
        Op::Unmake(name) => write_named(b"drop", name.as_slice(), out),
        Op::Put(name, key, value) => {
            write_named(b"put", name.as_slice(), out)?;
            write_word(COLON, key.as_slice(), out)?;
            write_word(COLON, value.as_slice(), out)
        }
        Op::Del(name, key) => {
            write_named(b"del", name.as_slice(), out)?;
            write_word(COLON, key.as_slice(), out)
        }
        Op::Push(name, value) => {
            write_named(b"push", name.as_slice(), out)?;
            write_word(COLON, value.as_slice(), out)
        }
        Op::Pop(name) => write_named(b"pop", name.as_slice(), out),
    }
}

// the first two parts of an operation: what it does, and to which collection
fn write_named(verb: &[u8], name: &[u8], out: &mut Vec<u8>) -> Result<(), NoMemory>
    ensures ok { OnOk result (out.new.items ≡ out.old.items ++ SPACE ∷ (verb.now ++ COLON ∷ name.now)) }
    ensures kept { StartsWith out.new.items out.old.items }
{
    write_word(SPACE, verb, out)?;
    write_word(COLON, name, out)
}

fn write_kind(kind: Kind, out: &mut Vec<u8>) -> Result<(), NoMemory>
    ensures ok { OnOk result (out.new.items ≡ out.old.items ++ COLON ∷ kind_word kind) }
    ensures kept { StartsWith out.new.items out.old.items }
{
    match kind {
        Kind::Dict => write_word(COLON, b"dict", out),
        Kind::Queue => write_word(COLON, b"queue", out),
    }
}

fn write_word(before: u8, word: &[u8], out: &mut Vec<u8>) -> Result<(), NoMemory>
    ensures ok { OnOk result (out.new.items ≡ out.old.items ++ before ∷ word.now) }
    ensures kept { StartsWith out.new.items out.old.items }
{
    out.push(before)?;
    out.extend_from_slice(word)?;
    Ok(())
}

fn write_number(before: u8, n: u64, out: &mut Vec<u8>) -> Result<(), NoMemory>
    ensures ok { OnOk result (out.new.items ≡ out.old.items ++ before ∷ decimal n) }
    ensures kept { StartsWith out.new.items out.old.items }
{
    out.push(before)?;
    write_digits(n, out)
}

// a decimal number
fn write_digits(n: u64, out: &mut Vec<u8>) -> Result<(), NoMemory>
    ensures ok { OnOk result (out.new.items ≡ out.old.items ++ decimal n) }
    ensures kept { StartsWith out.new.items out.old.items }
{
    let mut buffer = Buffer::new();
    out.extend_from_slice(buffer.format(n).as_bytes())?;
    Ok(())
}
