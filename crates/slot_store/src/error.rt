ghost use Rattle.std.specs.Prelude.{◌≡◌};

use disk_model::DiskError;
use thiserror::Error;

/// Why a slot wasn't read.
#[derive(Clone, Copy, Debug, PartialEq, Eq, Error)]
pub enum SlotError {
    /// The slot has this many bytes, and ends before those that were asked for.
    #[error("the slot ends at {len}")]
    Short { len: u64 },
    /// The disk failed, and its count of faults rose.
    #[error("the disk failed")]
    Disk,
    /// Want of memory.
    #[error("out of memory")]
    NoMemory,
}

impl From<DiskError> for SlotError {
    ghost use Rattle.std.specs.Prelude.{◌≡◌};
    ghost use Rattle.slot_store.specs.Slots.{slot_error};

    ghost from_gives = { λ e r. r ≡ slot_error e };

    fn from(e: DiskError) -> SlotError {
        match e {
            DiskError::Failed => SlotError::Disk,
            DiskError::NoMemory => SlotError::NoMemory,
        }
    }
}
