//! The collections of a replica under their names, at versions, over any providers.
#![tactic(auto)]

mod chain;
mod change;
mod loading;
mod manager;
mod names;
mod slot;

pub use manager::Manager;
