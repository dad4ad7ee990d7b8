use coll_model::Op;
use rc_base::{Epoch, Lsn, TxnId};

/// A logical record of the log: what a transaction did, and what the primary of an epoch noted.
#[derive(Drop, PartialEq, Eq)]
pub enum Record {
    /// The transaction begins.
    Begin {
        txn: TxnId,
    },
    /// The transaction's operation. `prev` is the position of its record before this one.
    Operation {
        txn: TxnId,
        prev: Lsn,
        op: Op,
    },
    /// The transaction ends, committed or aborted. `prev` is the position of its record before this one.
    End {
        txn: TxnId,
        prev: Lsn,
        committed: bool,
    },
    /// What is logged up to `stable` is held by a quorum.
    Barrier {
        stable: Lsn,
    },
    /// The epoch begins.
    EpochStart {
        epoch: Epoch,
    },
}

/// A physical record: what stands in a log area.
#[derive(Drop, PartialEq, Eq)]
pub enum Physical {
    /// A logical record with its position and epoch.
    Logical {
        lsn: Lsn,
        epoch: Epoch,
        body: Record,
    },
    /// Packets of epochs below this one are refused from here on.
    Fence {
        epoch: Epoch,
    },
    /// The records above the position go.
    TruncateTail {
        lsn: Lsn,
    },
    /// The slot, 0 or 1, holds a checkpoint at the position, of `len` bytes.
    CheckpointDone {
        slot: u8,
        at: Lsn,
        len: u64,
    },
    /// The log begins again at the position, with the checkpoint in the slot, 0 or 1, of `len` bytes.
    Reset {
        slot: u8,
        at: Lsn,
        len: u64,
    },
    /// The first record of a log area: which generation of which partition's log it is.
    Head {
        generation: u64,
        partition: u128,
    },
}
