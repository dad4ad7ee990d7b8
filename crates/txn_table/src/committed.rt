use coll_model::Ops;
use rc_base::TxnId;

/// A transaction that commits, with its operations in order.
#[derive(Drop)]
pub struct Committed {
    pub txn: TxnId,
    pub ops: Ops,
}
