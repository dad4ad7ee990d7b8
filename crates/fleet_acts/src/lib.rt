//! The acts of an event, done by code: a replica is opened, takes a step or is closed, and lines are said. What each does is
//! what the runs of a fleet say of it.
#![tactic(auto)]

mod closing;
mod lines;
mod opening;
mod rows;
mod saying;
mod taking;

pub use closing::close;
pub use opening::open;
pub use saying::say;
pub use taking::take;
