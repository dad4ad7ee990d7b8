//! A collection of either kind at several versions: a dictionary or a queue.
#![tactic(auto)]

mod collection;
mod provider;

pub use collection::Collection;
