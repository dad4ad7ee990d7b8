//! A dictionary that keeps its contents at several versions.
#![tactic(auto)]

mod dict;
mod provider;
mod rising;

pub use dict::Dict;
