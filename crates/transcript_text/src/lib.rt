//! The transcript's text: each line is a number and an observation, has one text, and is read back from it.
#![tactic(auto)]

mod cause;
mod form;
mod laws;
mod list_words;
mod op_words;
mod operands;
mod parsing;
mod printing;
mod word_error;

pub use laws::lines_read_once;
pub use parsing::read_obs;
pub use printing::print;
