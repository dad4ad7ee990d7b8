//! Slots: two areas of a disk, each of which takes one image, put there piece by piece.
#![tactic(auto)]

mod error;
mod store;

pub use error::SlotError;
pub use store::SlotStore;
