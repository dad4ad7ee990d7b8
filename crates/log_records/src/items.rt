use crate::record::Record;
use rc_base::{Epoch, Seq};

/// Logical records in the order of a log, each with the epoch in which it was logged.
pub type Items = Seq<(Epoch, Record)>;
