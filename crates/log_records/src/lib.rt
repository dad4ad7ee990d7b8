//! The records of a replica's log, and their spelling in bytes: each record has one, and no spelling begins another.
#![tactic(auto)]

mod codec;
mod error;
mod items;
mod law;
mod pending;
mod ranges;
mod reading;
mod record;
mod words;
mod writing;

pub use codec::{decode, decode_op, decode_record, encode, encode_op, encode_record};
pub use error::CodecError;
pub use items::Items;
pub use law::one_spelling;
pub use pending::{LoggedOps, Pending, PendingTxn};
pub use ranges::{physical_in_range, record_in_range};
pub use record::{Physical, Record};
pub use words::{is_key, is_value};
pub use writing::{op_fits, physical_fits, record_fits};
