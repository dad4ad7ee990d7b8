//! The words that every layer of the store shares: epochs, log positions, transactions, replicas and their
//! configurations, names, bytes and lists, the sizes of quorums, and what it means that a count of faults rose.
#![tactic(auto)]

mod bytes;
mod fields;
mod ids;
mod limit_name;
mod members;
mod name;
mod names;
mod no_memory;
mod quorum;
mod seq;

pub use bytes::Bytes;
pub use fields::{Bad, Fields, put_bytes, put_short, put_u8, put_u32, put_u64, put_u128};
pub use ids::{Epoch, Lsn, ReplicaId, TxnId};
pub use limit_name::LimitName;
pub use members::{Members, MembersError, find_twice};
pub use name::Name;
pub use names::is_name;
pub use no_memory::NoMemory;
pub use quorum::{read_quorum, write_quorum};
pub use seq::Seq;

#[cfg(test)]
mod tests;
