ghost use Rattle.std.specs.Prelude.{◌≡◌};
ghost use Rattle.gated_log.specs.declared.error.LogError.TheVariants.{NoMemory};

use disk_model::DiskError;
use thiserror::Error;

/// Why a call of a log was not done.
#[derive(Clone, Copy, Debug, PartialEq, Eq, Error)]
pub enum LogError {
    /// The disk failed, and its count of faults rose.
    #[error("the disk failed")]
    Disk,
    /// Want of memory.
    #[error("out of memory")]
    NoMemory,
    /// An earlier call on this log failed: mount it again.
    #[error("the log is closed")]
    Closed,
}

impl From<DiskError> for LogError {
    ghost use Rattle.std.specs.Prelude.{◌≡◌};
    ghost use Rattle.gated_log.specs.Errors.{log_error};

    ghost from_gives = { λ e r. r ≡ log_error e };

    fn from(e: DiskError) -> LogError {
        match e {
            DiskError::Failed => LogError::Disk,
            DiskError::NoMemory => LogError::NoMemory,
        }
    }
}

impl From<rc_base::NoMemory> for LogError {
    ghost from_gives = { λ _ r. r ≡ NoMemory };

    fn from(_: rc_base::NoMemory) -> LogError {
        LogError::NoMemory
    }
}
