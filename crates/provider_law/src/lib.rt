//! What a collection that keeps its contents at several versions promises: the trait of providers, with its laws.
#![tactic(auto)]

mod ask;
mod error;
mod laws;
mod provider;
mod several;

pub use ask::{Ask, Reply};
pub use error::LoadError;
pub use laws::undo_takes_back_what_was_applied;
pub use provider::StateProvider;
pub use several::apply_all;
