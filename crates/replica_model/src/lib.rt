//! An open replica as its users see it: what it is, which steps it takes, and what a step logs, changes and tells. Only the
//! types of events and outcomes are there when a program runs.
#![tactic(auto)]

mod commits;
mod role;
mod step;
mod txn_ids;

pub use commits::Commits;
pub use role::Role;
pub use step::{Outcome, StepEvent};
pub use txn_ids::TxnIds;
