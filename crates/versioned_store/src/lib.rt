//! A dictionary's pairs at several versions: for each key a chain of its values, by the version from which each is seen.
#![tactic(auto)]

mod chain;
mod journal;
mod steps;
mod versions;

pub use chain::{Chain, Change};
pub use journal::JournalEntry;
pub use versions::Versions;
