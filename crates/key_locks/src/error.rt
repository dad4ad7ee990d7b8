ghost use Rattle.std.specs.Prelude.{◌≡◌};
ghost use Rattle.key_locks.specs.declared.error.TakeError.TheVariants.{NoMemory};

use rc_base::TxnId;
use thiserror::Error;

/// Why a lock wasn't granted.
#[derive(Clone, Copy, Debug, PartialEq, Eq, Error)]
pub enum TakeError {
    /// The first other holder whose grant doesn't allow the request.
    #[error("the name is held")]
    Held { by: TxnId },
    /// Out of memory.
    #[error("out of memory")]
    NoMemory,
}

impl From<rc_base::NoMemory> for TakeError {
    ghost from_gives = { λ _ e. e ≡ NoMemory };

    fn from(_: rc_base::NoMemory) -> TakeError {
        TakeError::NoMemory
    }
}
