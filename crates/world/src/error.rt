ghost use Rattle.std.specs.Prelude.{◌≡◌};
ghost use Rattle.world.specs.declared.error.WorldError.TheVariants.{NoMemory as no_memory};

use order_machine::Observations;
use rc_base::{LimitName, NoMemory};
use std::alloc::AllocError;
use thiserror::Error;

/// Why an event was not done whole. Its world is dropped.
#[derive(Debug, Drop, Error)]
pub enum WorldError {
    /// Want of memory.
    #[error("out of memory")]
    NoMemory,
    /// The event reached a limit, after these lines of it.
    #[error("the limit {which} was reached")]
    Limit {
        which: LimitName,
        lines: Observations,
    },
    /// The event is read, but isn't built at this machine, after these lines of it.
    #[error("the event is not built")]
    Unbuilt {
        lines: Observations,
    },
}

impl From<NoMemory> for WorldError {
    ghost from_gives = { λ _ e. e ≡ no_memory };

    fn from(_e: NoMemory) -> WorldError {
        WorldError::NoMemory
    }
}

impl From<AllocError> for WorldError {
    ghost from_gives = { λ _ e. e ≡ no_memory };

    fn from(_e: AllocError) -> WorldError {
        WorldError::NoMemory
    }
}
