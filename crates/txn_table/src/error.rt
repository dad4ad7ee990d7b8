ghost use Rattle.std.specs.Prelude.{◌≡◌};
ghost use Rattle.txn_table.specs.declared.error.TableError.TheVariants as errors;

use rc_base::{Lsn, NoMemory};
use std::alloc::{AllocError, AllocFailed};
use thiserror::Error;

/// Why a record isn't taken.
#[derive(Clone, Copy, Debug, PartialEq, Eq, Error)]
pub enum TableError {
    /// The transaction of a Begin is known already; or that of an Operation or an End isn't pending, or the record
    /// doesn't name the position of that transaction's last record.
    #[error("the record at {} names {} in place of {}", .lsn.0, .prev.0, .wanted.0)]
    BadLink {
        /// The position of the record.
        lsn: Lsn,
        /// The position that it names, 0 for a Begin.
        prev: Lsn,
        /// The position of the transaction's last record, 0 where there is none.
        wanted: Lsn,
    },
    /// Want of memory.
    #[error("out of memory")]
    NoMemory,
}

impl From<NoMemory> for TableError {
    ghost from_gives = { λ _ e. e ≡ errors.NoMemory };

    fn from(_e: NoMemory) -> TableError {
        TableError::NoMemory
    }
}

impl From<AllocError> for TableError {
    ghost from_gives = { λ _ e. e ≡ errors.NoMemory };

    fn from(_e: AllocError) -> TableError {
        TableError::NoMemory
    }
}

impl<T: Drop> From<AllocFailed<T>> for TableError {
    ghost from_gives = { λ _ e. e ≡ errors.NoMemory };

    fn from(_e: AllocFailed<T>) -> TableError {
        TableError::NoMemory
    }
}
