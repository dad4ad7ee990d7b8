//! Disks of four areas that may fail or be stopped at any call: what a call leaves, and what a stop may leave.
#![tactic(auto)]

mod area;
mod change;
mod disk;
mod memory;
mod through;

pub use area::{Area, LOG0, LOG1, SLOT0, SLOT1};
pub use disk::{CrashDisk, Disk, DiskError};
pub use memory::MemDisk;
pub use through::{cut_through, read_all, write_through};
