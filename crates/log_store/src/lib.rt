//! The log of a replica on its disk: it is opened, read whole, and appended to by groups of records.
#![tactic(auto)]

mod durable;
mod error;
mod fold;
mod kept;
mod reading;
mod store;

pub use durable::Durable;
pub use error::RecoverError;
pub use kept::Kept;
pub use store::LogStore;
