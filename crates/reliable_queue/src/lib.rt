//! A queue that keeps its contents at several versions: a push, a pop and a look at one item cost no walk of it.
#![tactic(auto)]

mod provider;
mod queue;

pub use queue::Queue;
