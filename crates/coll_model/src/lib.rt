//! The collections of a store as one value: named dictionaries and queues, the operations on them, what each
//! operation does, and how they are seen at some moment.
#![tactic(auto)]

mod contents;
mod op;
mod rows;
mod state;

pub use contents::{Contents, Pairs, Values};
pub use op::{Kind, Op, Ops};
pub use rows::{Collection, Image, Names, Rows, Words, row_words};
pub use state::State;
