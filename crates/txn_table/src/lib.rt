//! The transactions of a log as its records come: which are pending at each position, and which commit, with which
//! operations. A record whose link is wrong is refused.
#![tactic(auto)]

mod base;
mod committed;
mod error;
mod known;
mod steps;
mod table;

pub use base::Base;
pub use committed::Committed;
pub use error::TableError;
pub use known::{Ending, Known};
pub use table::Table;
