use coll_model::Op;
use rc_base::{Bytes, Epoch, ReplicaId, TxnId};

/// The answer to an event, or to a client's call. There is one variant for each answer that is built so far, with its
/// words as fields.
#[derive(Drop)]
pub enum Answer {
    /// A begin: this transaction begins.
    Txn(TxnId),
    /// It was done.
    Done,
    /// The call did what it was asked.
    True,
    /// It didn't, since that was so already.
    False,
    /// What the call asked for.
    Value(Bytes),
    /// There is no such value.
    Missing,
    /// The transaction sees no collection of this name.
    Absent,
    /// The collection is of another kind.
    WrongKind,
    /// This transaction isn't live at the replica.
    Ended(TxnId),
    /// This transaction holds a lock that stands against the call.
    Locked(TxnId),
    /// The replica isn't an active primary.
    NotActive(ReplicaId),
    /// The replica isn't open.
    Down(ReplicaId),
    /// The event breaks this part of its rule.
    Refused(u8),
    /// The last record of the replica's log has this epoch and this position.
    Progress(ReplicaId, Epoch, u64),
    /// Ignored: the replica is open already.
    IgnoredUp,
    /// Ignored: the replica refuses epochs below the first, and the second is one.
    IgnoredOldEpoch(Epoch, Epoch),
}

/// The answer to a client's call, and the operation that it logs, if any.
#[derive(Drop)]
pub struct Reply {
    pub answer: Answer,
    pub op: Option<Op>,
}
