ghost use Rattle.std.specs.Prelude.{◌≡◌, IfOk, filter, nat_le};
ghost use Rattle.txn_table.specs.Commits.{last_position};

use coll_model::Op;
use log_records::{LoggedOps, PendingTxn};
use rc_base::{Lsn, NoMemory, TxnId};
use std::alloc::{AllocError, Global};

/// What ended a transaction, and at which position: its own End, or the start of an epoch.
#[derive(Clone, Copy, PartialEq, Eq)]
pub enum Ending {
    ByEnd(Lsn),
    ByEpoch(Lsn),
}

/// What a table knows of a transaction.
#[derive(Drop)]
pub struct Known {
    pub txn: TxnId,
    /// The position of its Begin.
    pub begin: Lsn,
    pub ops: LoggedOps,
    /// None while it is pending.
    pub ending: Option<Ending>,
}

impl Ending {
    ghost use Rattle.std.specs.Prelude.{◌≡◌};
    ghost use Rattle.txn_table.specs.Tables.{position};

    /// The position of the record that ended the transaction.
    pub fn position(self) -> Lsn
        ensures { result ≡ position self }
    {
        match self {
            Ending::ByEnd(lsn) | Ending::ByEpoch(lsn) => lsn,
        }
    }
}

impl Known {
    ghost use Rattle.std.specs.Prelude.{◌≡◌, [], IfOk};
    ghost use Rattle.txn_table.specs.Commits.{last_of, as_pending, seen, is_pending};
    ghost use Rattle.std.specs.Prelude.{◌∷◌, ◌&&◌, nat_le};
    ghost use Rattle.rc_base.specs.declared.ids.Epoch.{Epoch};
    ghost use Rattle.log_records.specs.declared.record.Record.TheVariants.{EpochStart};
    ghost use Rattle.txn_table.specs.Tables.{followed, trimmed, ends_above};

    /// A transaction that is pending, as a copy.
    pub fn from_pending(pending: &PendingTxn) -> Result<Known, AllocError>
        ensures { IfOk result (λ k. k ≡ seen [] pending.now) }
    {
        Ok(Known {
            txn: pending.txn,
            begin: pending.begin,
            ops: pending.ops.clone()?,
            ending: None,
        })
    }

    /// The position of its last record.
    pub fn last(&self) -> Lsn
        ensures { result ≡ last_of self.now }
    {
        match &self.ending {
            Some(Ending::ByEnd(lsn)) => *lsn,
            _ => last_position(self.begin, self.ops.as_slice()),
        }
    }

    /// Takes away its records above a position, at or below which it began. It takes no memory.
    pub fn trim_to(&mut self, lsn: Lsn)
        ensures { self.new ≡ trimmed lsn self.old }
    {
        self.ops.cut_to(lsn);
        if self.ends_above(lsn) {
            self.ending = None;
        }
    }

    /// The start of an epoch ends it, where it is pending.
    pub fn end_with_epoch(&mut self, lsn: Lsn)
        ensures { (epoch : Epoch) → self.new ≡ followed ((lsn, EpochStart epoch) ∷ []) self.old }
    {
        if self.ending.is_none() {
            self.ending = Some(Ending::ByEpoch(lsn));
        }
    }

    /// Whether it was pending at a position.
    pub fn was_pending(&self, lsn: Lsn) -> bool
        ensures { result ≡ (nat_le self.now.begin.0 lsn.0 && ends_above lsn self.now.ending) }
    {
        self.begin.0 <= lsn.0 && self.ends_above(lsn)
    }

    /// What was pending at a position, as a copy.
    pub fn pending_at(&self, alloc: Global, lsn: Lsn) -> Result<PendingTxn, NoMemory>
        ensures { IfOk result (λ p. p ≡ as_pending (trimmed lsn self.now)) }
    {
        Ok(PendingTxn {
            txn: self.txn,
            begin: self.begin,
            ops: ops_to(alloc, self.ops.as_slice(), lsn)?,
        })
    }

    /// Whether no record at or below the position ends it.
    pub fn ends_above(&self, lsn: Lsn) -> bool
        ensures { result ≡ ends_above lsn self.now.ending }
    {
        match &self.ending {
            None => true,
            Some(ending) => lsn.0 < ending.position().0,
        }
    }
}

// The position of the last of the operations, or the one given where there is none.
fn last_position(begin: Lsn, ops: &[(Lsn, Op)]) -> Lsn
    ensures { result ≡ last_position begin ops.now }
{
    match ops.last() {
        None => begin,
        Some(logged) => logged.0,
    }
}

// The operations at or below a position.
fn ops_to(alloc: Global, ops: &[(Lsn, Op)], lsn: Lsn) -> Result<LoggedOps, NoMemory>
    ensures { IfOk result (λ out. out ≡ filter (λ logged. nat_le logged.0.0 lsn.0) ops.now) }
{
    let mut out = LoggedOps::new(alloc);
    for logged in ops {
        if logged.0.0 <= lsn.0 {
            out.push(logged.0, logged.1.clone()?)?;
        }
    }
    Ok(out)
}
