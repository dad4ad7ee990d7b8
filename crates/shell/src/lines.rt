ghost use Rattle.std.specs.Prelude.{◌≡◌, ◌++◌, IfOk, IsErrOf, decimal};
ghost use Rattle.rc_base.specs.Counts.{Counted};
ghost use Rattle.transcript_text.specs.Lines.{lines_text};
ghost use Rattle.shell.specs.Text as text;
ghost use Rattle.shell.specs.Reached.{Writes};
ghost use Rattle.shell.specs.declared.lines.WriteError.TheVariants.{NoMemory as no_memory};

use itoa::Buffer;
use order_machine::Observation;
use rc_base::{LimitName, NoMemory};
use rc_io::{Sink, write_all};
use std::alloc::{AllocError, AllocFailed, Global};
use transcript_text::print;

/// Why a text was not written whole.
#[derive(Clone, Copy)]
pub enum WriteError {
    /// The sink failed, after a part of the text.
    Failed,
    /// Want of memory: nothing of the text was written.
    NoMemory,
}

impl From<NoMemory> for WriteError {
    ghost from_gives = { λ _ e. e ≡ no_memory };

    fn from(_e: NoMemory) -> WriteError {
        WriteError::NoMemory
    }
}

impl From<AllocError> for WriteError {
    ghost from_gives = { λ _ e. e ≡ no_memory };

    fn from(_e: AllocError) -> WriteError {
        WriteError::NoMemory
    }
}

impl<T: Drop> From<AllocFailed<T>> for WriteError {
    ghost from_gives = { λ _ e. e ≡ no_memory };

    fn from(_e: AllocFailed<T>) -> WriteError {
        WriteError::NoMemory
    }
}

// Writes a text.
fn write_text<K: Sink>(sink: &mut K, bytes: &[u8]) -> Result<(), WriteError>
    ensures writes { Writes bytes.now (K.holds sink.old) (K.holds sink.new) result }
    ensures memory { IsErrOf result WriteError.NoMemory → ⊥ }
    ensures cause { Counted (K.faults sink.old) (K.faults sink.new) (IsErrOf result WriteError.Failed) }
{
    match write_all(sink, bytes) {
        Ok(()) => Ok(()),
        Err(_) => Err(WriteError::Failed),
    }
}

// The lines of an event, each with its LF.
fn text_of(alloc: Global, number: u64, lines: &[Observation]) -> Result<Vec<u8>, NoMemory>
    ensures { IfOk result (λ text. text.items ≡ lines_text number lines.now) }
{
    let mut out = Vec::new(alloc);
    for line in lines {
        print(number, line, &mut out)?;
        out.push(b'\n')?;
    }
    Ok(out)
}

/// Writes the lines of an event.
///
/// # Errors
/// `Failed` where the sink failed, which has a part of them then; `NoMemory` where it is out of memory.
pub fn write_lines<K: Sink>(
    alloc: Global,
    sink: &mut K,
    number: u64,
    lines: &[Observation],
) -> Result<(), WriteError>
    ensures writes { Writes (lines_text number lines.now) (K.holds sink.old) (K.holds sink.new) result }
    ensures cause { Counted (K.faults sink.old) (K.faults sink.new) (IsErrOf result WriteError.Failed) }
{
    let text = text_of(alloc, number, lines)?;
    write_text(sink, &text)
}

/// Writes the usage line.
///
/// # Errors
/// `Failed` where the sink failed, which has a part of the line then.
pub fn write_usage<K: Sink>(sink: &mut K) -> Result<(), WriteError>
    ensures writes { Writes text.usage (K.holds sink.old) (K.holds sink.new) result }
    ensures memory { IsErrOf result WriteError.NoMemory → ⊥ }
    ensures cause { Counted (K.faults sink.old) (K.faults sink.new) (IsErrOf result WriteError.Failed) }
{
    write_text(
        sink,
        b"usage world | store FOLDER [PARTITION] | drill SEED COUNT\n",
    )
}

// The text of a number, and what comes after it.
fn numbered(alloc: Global, number: u64, rest: &[u8]) -> Result<Vec<u8>, AllocError>
    ensures { IfOk result (λ text. text.items ≡ decimal number ++ rest.now) }
{
    let mut buffer = Buffer::new();
    let mut text = Vec::from_slice(alloc, buffer.format(number).as_bytes())?;
    text.extend_from_slice(rest)?;
    Ok(text)
}

/// Writes the last line of a run that a bad line of this number ends.
///
/// # Errors
/// `Failed` where the sink failed, which has a part of the line then; `NoMemory` where it is out of memory.
pub fn write_bad_line<K: Sink>(alloc: Global, sink: &mut K, number: u64) -> Result<(), WriteError>
    ensures writes { Writes (text.bad_line_text number) (K.holds sink.old) (K.holds sink.new) result }
    ensures cause { Counted (K.faults sink.old) (K.faults sink.new) (IsErrOf result WriteError.Failed) }
{
    let line = numbered(alloc, number, b" stop 3\n")?;
    write_text(sink, &line)
}

/// Writes the lines of an event that isn't built, and the last line of the run, which it ends.
///
/// # Errors
/// `Failed` where the sink failed, which has a part of them then; `NoMemory` where it is out of memory.
pub fn write_unbuilt<K: Sink>(
    alloc: Global,
    sink: &mut K,
    number: u64,
    lines: &[Observation],
) -> Result<(), WriteError>
    ensures writes { Writes (lines_text number lines.now ++ text.bad_line_text number) (K.holds sink.old) (K.holds sink.new) result }
    ensures cause { Counted (K.faults sink.old) (K.faults sink.new) (IsErrOf result WriteError.Failed) }
{
    let mut text = text_of(alloc, number, lines)?;
    text.extend_from_slice(&numbered(alloc, number, b" stop 3\n")?)?;
    write_text(sink, &text)
}

// The last line of a run that a limit ends.
fn limit_line(alloc: Global, number: u64, which: LimitName) -> Result<Vec<u8>, AllocError>
    ensures { IfOk result (λ line. line.items ≡ text.limit_line_text number which) }
{
    let mut line = numbered(alloc, number, b" stop 9 ")?;
    line.extend_from_slice(which.word().as_bytes())?;
    line.push(b'\n')?;
    Ok(line)
}

/// Writes the last line of a run that a limit ends, in the line of this number.
///
/// # Errors
/// `Failed` where the sink failed, which has a part of the line then; `NoMemory` where it is out of memory.
pub fn write_limit<K: Sink>(
    alloc: Global,
    sink: &mut K,
    number: u64,
    which: LimitName,
) -> Result<(), WriteError>
    ensures writes { Writes (text.limit_line_text number which) (K.holds sink.old) (K.holds sink.new) result }
    ensures cause { Counted (K.faults sink.old) (K.faults sink.new) (IsErrOf result WriteError.Failed) }
{
    let line = limit_line(alloc, number, which)?;
    write_text(sink, &line)
}

/// Writes the lines of an event that reaches a limit, and the last line of the run, which it ends.
///
/// # Errors
/// `Failed` where the sink failed, which has a part of them then; `NoMemory` where it is out of memory.
pub fn write_limited<K: Sink>(
    alloc: Global,
    sink: &mut K,
    number: u64,
    lines: &[Observation],
    which: LimitName,
) -> Result<(), WriteError>
    ensures writes { Writes (lines_text number lines.now ++ text.limit_line_text number which) (K.holds sink.old) (K.holds sink.new) result }
    ensures cause { Counted (K.faults sink.old) (K.faults sink.new) (IsErrOf result WriteError.Failed) }
{
    let mut text = text_of(alloc, number, lines)?;
    text.extend_from_slice(&limit_line(alloc, number, which)?)?;
    write_text(sink, &text)
}
