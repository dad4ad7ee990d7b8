use rc_base::Seq;
use txn_table::Committed;

/// Commits in their order.
pub type Commits = Seq<Committed>;
