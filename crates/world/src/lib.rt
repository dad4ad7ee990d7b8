//! The world of a script: up to nine replicas, and what each event does there and prints.
#![tactic(auto)]

mod effects;
mod error;
mod opening;
mod reconfiguring;
mod rows;
mod starting;
mod steps;
mod world;

pub use error::WorldError;
pub use world::World;
