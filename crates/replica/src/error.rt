ghost use Rattle.std.specs.Prelude.{◌≡◌};
ghost use Rattle.replica.specs.declared.error.StepError.TheVariants as errors;

use rc_base::NoMemory;
use std::alloc::{AllocError, AllocFailed};
use thiserror::Error;

/// Why a step was not done. The replica is closed then: its owner drops it.
#[derive(Clone, Copy, Debug, PartialEq, Eq, Error)]
pub enum StepError {
    /// The disk failed.
    #[error("the disk failed")]
    Disk,
    /// Want of memory.
    #[error("out of memory")]
    NoMemory,
}

impl From<NoMemory> for StepError {
    ghost from_gives = { λ _ e. e ≡ errors.NoMemory };

    fn from(_e: NoMemory) -> StepError {
        StepError::NoMemory
    }
}

impl From<AllocError> for StepError {
    ghost from_gives = { λ _ e. e ≡ errors.NoMemory };

    fn from(_e: AllocError) -> StepError {
        StepError::NoMemory
    }
}

impl<T: Drop> From<AllocFailed<T>> for StepError {
    ghost from_gives = { λ _ e. e ≡ errors.NoMemory };

    fn from(_e: AllocFailed<T>) -> StepError {
        StepError::NoMemory
    }
}
