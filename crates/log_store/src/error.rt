ghost use Rattle.std.specs.Prelude.{◌≡◌};
ghost use Rattle.log_store.specs.declared.error.RecoverError.TheVariants as errors;

use disk_model::Area;
use rc_base::NoMemory;
use std::alloc::{AllocError, AllocFailed};
use thiserror::Error;

/// Why a log was not opened.
#[derive(Debug, Drop, PartialEq, Eq, Error)]
pub enum RecoverError {
    /// The disk failed, and its count of faults rose.
    #[error("the disk failed")]
    Disk,
    /// Want of memory.
    #[error("out of memory")]
    NoMemory,
    /// What stands in the area at this place, in bytes, isn't a log's.
    #[error("the log is damaged in area {area:?} at {at}")]
    Corrupt { area: Area, at: u64 },
}

impl From<NoMemory> for RecoverError {
    ghost from_gives = { λ _ e. e ≡ errors.NoMemory };

    fn from(_e: NoMemory) -> RecoverError {
        RecoverError::NoMemory
    }
}

impl From<AllocError> for RecoverError {
    ghost from_gives = { λ _ e. e ≡ errors.NoMemory };

    fn from(_e: AllocError) -> RecoverError {
        RecoverError::NoMemory
    }
}

impl<T: Drop> From<AllocFailed<T>> for RecoverError {
    ghost from_gives = { λ _ e. e ≡ errors.NoMemory };

    fn from(_e: AllocFailed<T>) -> RecoverError {
        RecoverError::NoMemory
    }
}
