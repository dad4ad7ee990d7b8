//! The script's text: each sentence is an event, each event has one text, and a line is a sentence, skipped, or bad.
#![tactic(auto)]

mod calls;
mod changes;
mod forms;
mod operands;
mod read;
mod stops;
pub mod words;

pub use read::{ScriptError, read_event};
