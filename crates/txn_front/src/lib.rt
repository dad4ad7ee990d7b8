//! The transactions that go on at a primary: their locks, their operations, and what their calls are answered.
#![tactic(auto)]

mod asking;
mod front;
mod going;

pub use front::Front;
pub use going::Going;
