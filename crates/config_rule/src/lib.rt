//! The rule of reconfiguration: which replica may be appointed as the primary of an epoch, and when an epoch's
//! configuration takes the place of the one before.
#![tactic(auto)]

mod answers;
mod appointments;
mod error;
mod members;
mod rule;

pub use appointments::Appointment;
pub use error::{Broken, RuleError};
pub use rule::Rule;
