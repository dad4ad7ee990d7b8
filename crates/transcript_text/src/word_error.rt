ghost use Rattle.std.specs.Prelude.{◌≡◌, length};
ghost use Rattle.transcript_text.specs.declared.word_error.WordError.TheVariants as errors;

use rc_base::NoMemory;
use std::alloc::AllocError;

/// Why words were not read.
#[derive(Clone, Copy, PartialEq, Eq)]
pub(crate) enum WordError {
    /// They are no value's. So many are left from the first wrong one on.
    Wrong { left: usize },
    /// Out of memory.
    NoMemory,
}

impl From<NoMemory> for WordError {
    ghost from_gives = { λ _ e. e ≡ errors.NoMemory };

    fn from(_e: NoMemory) -> WordError {
        WordError::NoMemory
    }
}

impl From<AllocError> for WordError {
    ghost from_gives = { λ _ e. e ≡ errors.NoMemory };

    fn from(_e: AllocError) -> WordError {
        WordError::NoMemory
    }
}

// The first of these words is wrong, or there is none.
pub(crate) fn wrong(words: &[&[u8]]) -> WordError
    ensures { result ≡ errors.Wrong (length words.now) }
{
    WordError::Wrong { left: words.len() }
}
