//! What a transcript may be: the observations, the one order of committed transactions, the machine that every run is a
//! run of, and which lines each event may have. How observations are written stands in the crate `transcript_text`.
#![tactic(auto)]

mod observation;
mod observations;

pub use observation::{Observation, line_of_answer};
pub use observations::Observations;
