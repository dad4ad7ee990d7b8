//! One replica: its log on its disk, what the log commits, and what the replica shows of it.
#![tactic(auto)]

mod effects;
mod epochs;
mod error;
mod mounting;
mod replica;
mod stepping;

pub use error::StepError;
pub use replica::Replica;
