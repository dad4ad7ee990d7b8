use rc_base::{Seq, TxnId};

/// Transactions in some order.
pub type TxnIds = Seq<TxnId>;
