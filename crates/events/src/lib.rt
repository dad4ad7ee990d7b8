//! What happens to a store, and what is answered: events, client calls, the locks that a call asks for, the one answer
//! that a call has at a state, and what a replay of calls is.
#![tactic(auto)]

mod answer;
mod call;
mod event;
mod replicas;

pub use answer::{Answer, Reply};
pub use call::{Call, KeyCall};
pub use event::Event;
pub use replicas::Replicas;
