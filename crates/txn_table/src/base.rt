use coll_model::State;
use log_records::Pending;
use progress_vector::Entries;
use rc_base::Lsn;

/// Where a log starts: a position, and what the records up to there left.
#[derive(Drop)]
pub struct Base {
    /// The position. The first record of the log has the next one.
    pub at: Lsn,
    /// How many transactions committed.
    pub count: u64,
    /// The epochs with their starts.
    pub entries: Entries,
    /// The transactions that are pending.
    pub pending: Pending,
    /// The collections after these commits.
    pub contents: State,
}
