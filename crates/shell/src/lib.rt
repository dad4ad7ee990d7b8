//! What a command of the program does: a script's lines are read, done and printed one after the other. Programs call `run`.
#![tactic(auto)]

mod command;
mod kit;
mod lines;
mod memory;

pub use command::run;
pub use kit::Kit;
pub use memory::nine_disks;
