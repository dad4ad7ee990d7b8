ghost use Rattle.std.specs.Prelude.{◌≡◌};
ghost use Rattle.log_records.specs.declared.error.CodecError.TheVariants as errors;

use rc_base::{Bad, NoMemory};
use std::alloc::{AllocError, AllocFailed};
use thiserror::Error;

/// Why bytes give no value.
#[derive(Clone, Copy, Debug, PartialEq, Eq, Error)]
pub enum CodecError {
    /// No prefix of the bytes is a spelling. The first wrong field or word begins at this place.
    #[error("wrong field at {at}")]
    Bad { at: u64 },
    /// Want of memory.
    #[error("out of memory")]
    NoMemory,
}

impl From<Bad> for CodecError {
    ghost from_gives = { λ bad e. e ≡ errors.Bad bad.at };

    fn from(bad: Bad) -> CodecError {
        CodecError::Bad { at: bad.at }
    }
}

impl From<NoMemory> for CodecError {
    ghost from_gives = { λ _ e. e ≡ errors.NoMemory };

    fn from(_e: NoMemory) -> CodecError {
        CodecError::NoMemory
    }
}

impl From<AllocError> for CodecError {
    ghost from_gives = { λ _ e. e ≡ errors.NoMemory };

    fn from(_e: AllocError) -> CodecError {
        CodecError::NoMemory
    }
}

impl<T: Drop> From<AllocFailed<T>> for CodecError {
    ghost from_gives = { λ _ e. e ≡ errors.NoMemory };

    fn from(_e: AllocFailed<T>) -> CodecError {
        CodecError::NoMemory
    }
}
