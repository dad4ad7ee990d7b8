ghost use Rattle.std.specs.Prelude.{◌≡◌, ◌++◌, ◌∷◌, [], OnOk, OnErr, filter, nat_le};

use coll_model::Op;
use rc_base::{Lsn, NoMemory, Seq, TxnId};
use std::alloc::{AllocError, Global};
use std::marker::Model;

/// Operations in the order in which they were logged, each with the position of its record. Contracts see the list
/// of them.
#[derive(Drop)]
pub struct LoggedOps {
    ops: Vec<(Lsn, Op)>,
}

impl Model for LoggedOps {
    ghost use Rattle.std.specs.Prelude.{List};
    ghost use Rattle.rc_base.specs.declared.ids.Lsn.{Lsn};
    ghost use Rattle.coll_model.specs.declared.op.Op.{Op};

    ghost Value = { List (Lsn × Op) };

    ghost view = { λ o. o.ops.items };
}

impl LoggedOps {
    /// No operations. It takes no memory.
    pub fn new(alloc: Global) -> LoggedOps
        ensures { result ≡ [] }
    {
        LoggedOps {
            ops: Vec::new(alloc),
        }
    }

    /// The operations of a vector, without a copy.
    pub fn from_vec(ops: Vec<(Lsn, Op)>) -> LoggedOps
        ensures { result ≡ ops.items }
    {
        LoggedOps { ops }
    }

    /// The vector again, without a copy.
    pub fn into_vec(self) -> Vec<(Lsn, Op)>
        ensures { result.items ≡ self }
    {
        let LoggedOps { ops } = self;
        ops
    }

    /// One more, after the others.
    ///
    /// # Errors
    /// `NoMemory`, and then the operations are as before.
    pub fn push(&mut self, lsn: Lsn, op: Op) -> Result<(), NoMemory>
        ensures ok { OnOk result (self.new ≡ self.old ++ (lsn, op) ∷ []) }
        ensures err { OnErr result (self.new ≡ self.old) }
    {
        self.ops.push((lsn, op))?;
        Ok(())
    }

    /// Takes away those above the position. It takes no memory.
    pub fn cut_to(&mut self, lsn: Lsn)
        ensures { self.new ≡ filter (λ logged. nat_le logged.0.0 lsn.0) self.old }
    {
        retain_to(&mut self.ops, lsn);
    }

    /// The operations with their positions.
    pub fn as_slice(&self) -> &[(Lsn, Op)]
        ensures { result.now ≡ self.now }
    {
        &self.ops
    }
}

fn retain_to(ops: &mut Vec<(Lsn, Op)>, lsn: Lsn)
    ensures { ops.new.items ≡ filter (λ logged. nat_le logged.0.0 lsn.0) ops.old.items }
{
    ops.retain(|logged| logged.0.0 <= lsn.0);
}

impl Clone for LoggedOps {
    ghost is_clone = { λ x y. y ≡ x };

    fn clone(&self) -> Result<LoggedOps, AllocError> {
        Ok(LoggedOps {
            ops: self.ops.clone()?,
        })
    }
}

/// A transaction that is pending: it began, and neither its End nor the start of an epoch stands after its Begin.
#[derive(Drop)]
pub struct PendingTxn {
    pub txn: TxnId,
    /// The position of its Begin.
    pub begin: Lsn,
    pub ops: LoggedOps,
}

impl Clone for PendingTxn {
    ghost is_clone = { λ x y. y ≡ x };

    fn clone(&self) -> Result<PendingTxn, AllocError> {
        Ok(PendingTxn {
            txn: self.txn,
            begin: self.begin,
            ops: self.ops.clone()?,
        })
    }
}

/// The transactions that are pending at a position of a log, by rising transaction.
pub type Pending = Seq<PendingTxn>;
