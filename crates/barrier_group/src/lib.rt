//! Groups of records that go into a log as one block: a stop leaves all of a group or nothing of it.
#![tactic(auto)]

mod group;

pub use group::Group;

#[cfg(test)]
mod tests;
