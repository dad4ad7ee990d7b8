ghost use Rattle.std.specs.Prelude.{◌≡◌, ◌↔◌, IsTrue, ℕ, List, IfOk, IfSome, IfNone, IsErrOf};
ghost use Rattle.events.specs.declared.event.Event.{Event};
ghost use Rattle.script_text.specs.Sentence.{Spells, IsSkipped, IsBad};
ghost use Rattle.script_text.specs.declared.read.ScriptError.TheVariants.{NoMemory as OutOfMemory};

use crate::forms::sentence;
use crate::words::parts_of;
use events::Event;
use rc_base::NoMemory;
use std::alloc::{AllocError, Global};
use thiserror::Error;

/// Why a line was not read.
#[derive(Clone, Copy, Debug, PartialEq, Eq, Error)]
pub enum ScriptError {
    /// The line is no sentence that is built, and it is not skipped.
    #[error("no sentence")]
    BadLine,
    /// Out of memory.
    #[error("out of memory")]
    NoMemory,
}

impl From<NoMemory> for ScriptError {
    ghost from_gives = { λ _ e. e ≡ OutOfMemory };

    fn from(_e: NoMemory) -> ScriptError {
        ScriptError::NoMemory
    }
}

impl From<AllocError> for ScriptError {
    ghost from_gives = { λ _ e. e ≡ OutOfMemory };

    fn from(_e: AllocError) -> ScriptError {
        ScriptError::NoMemory
    }
}

/// The event of a line without its LF, or none for a line that is skipped.
///
/// # Errors
/// `BadLine` exactly where the line is neither skipped nor a sentence; `NoMemory` where memory is out.
pub fn read_event(alloc: Global, line: &[u8]) -> Result<Option<Event>, ScriptError>
    ensures event { IfOk result (λ read. IfSome read (Spells line.now)) }
    ensures skipped { IfOk result (λ read. IfNone read (IsSkipped line.now)) }
    ensures bad { IsErrOf result ScriptError.BadLine → IsBad line.now }
{
    if is_skipped(line) {
        return Ok(None);
    }
    let words = parts_of(alloc, b' ', line)?;
    match sentence(alloc, &words)? {
        Some(event) => Ok(Some(event)),
        None => Err(ScriptError::BadLine),
    }
}

// Whether the line is empty or begins with `#`.
fn is_skipped(line: &[u8]) -> bool
    ensures { IsTrue result ↔ IsSkipped line.now }
{
    matches!(line, [] | [b'#', ..])
}

/// A line spells at most one event, and one that is skipped spells none.
pub fn one_sentence()
    ensures one { (line : List ℕ) (a b : Event) → Spells line a → Spells line b → a ≡ b }
    ensures skipped { (line : List ℕ) (a : Event) → Spells line a → IsSkipped line → ⊥ }
{}
