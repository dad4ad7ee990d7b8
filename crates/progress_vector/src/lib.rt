//! Progress vectors: which epoch stands at each position of a replica's log, and by which mode a copy brings one
//! replica's log to another's.
#![tactic(auto)]

mod copy;
mod entries;
mod mode;
mod vector;

pub use copy::{copy_mode, one_mode};
pub use entries::Entries;
pub use mode::Mode;
pub use vector::Vector;

#[cfg(test)]
mod tests;
