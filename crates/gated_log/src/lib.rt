//! A log of blocks over an area of a disk. A block counts once its gate is open, and an append opens it only when the
//! whole block is on the disk: so a stop at any moment leaves the blocks from before, or those and the new one.
#![tactic(auto)]

mod block;
mod error;
mod log;

pub use block::{Block, Blocks};
pub use error::LogError;
pub use log::GatedLog;
