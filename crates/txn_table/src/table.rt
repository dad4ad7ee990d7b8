ghost use Rattle.std.specs.Prelude.{◌≡◌};
ghost use Rattle.txn_table.specs.Tables.{lesser, greater};

use crate::committed::Committed;
use crate::error::TableError;
use crate::known::Known;
use crate::steps;
use log_records::{Pending, Record};
use rc_base::{Lsn, NoMemory};
use std::alloc::Global;
use std::marker::Model;

/// The transactions of a log, from a position on, which is the table's floor: those pending there, and those that
/// begin in the records behind it, which the table takes one by one.
///
/// What ended behind the floor is kept too, so that it can be made pending again.
#[derive(Drop)]
pub struct Table {
    alloc: Global,
    floor: Lsn,
    last: Lsn,
    txns: Vec<Known>,
}

impl Model for Table {
    ghost use Rattle.std.specs.Prelude.{◌≤◌};
    ghost use Rattle.txn_table.specs.Tables.{State, Rise};

    ghost Value = { State };

    ghost view = { λ t. record { floor = t.floor; last = t.last; txns = t.txns.items } };

    ghost invariant = { λ t. Rise t.txns.items };
}

impl Table {
    ghost use Rattle.std.specs.Prelude.{◌<◌, ◌≤◌, ◌∷◌, ◌++◌, [], List, IfOk, OnOk, OnErr, map};
    ghost use Rattle.std.specs.List.{AllByRecursion};
    ghost use Rattle.log_records.specs.declared.pending.PendingTxn.{PendingTxn};
    ghost use Rattle.txn_table.specs.Commits.{Logged, commits, commit_in, one_or_none, fault_in, pending, pending_in, to, behind, seen};
    ghost use Rattle.txn_table.specs.Tables.{StandsFor, IsBelow, RiseByTxn, RefusesExactly, with_records, cut, recent, lesser, greater};

    /// The table of a log's base at a position, which is its floor.
    ///
    /// # Errors
    /// `NoMemory` for want of memory.
    pub fn new(alloc: Global, at: Lsn, pending: &Pending) -> Result<Table, NoMemory>
        requires by_txn { RiseByTxn pending.now }
        requires below { AllByRecursion (IsBelow at.0) pending.now }
        ensures value { IfOk result (λ t. t ≡ record { floor = at; last = at; txns = map (seen []) pending.now }) }
        ensures stands { IfOk result (λ t. StandsFor t pending.now []) }
    {
        Ok(Table {
            alloc,
            floor: at,
            last: at,
            txns: steps::from_pending(alloc, pending.as_slice())?,
        })
    }

    /// Takes the log's next record. With an End that commits it answers the transaction and its operations.
    ///
    /// # Errors
    /// `BadLink` exactly where a Begin's transaction was pending at the floor or has a record above it, or the
    /// transaction of an Operation or an End isn't pending, or that record doesn't name the position of the
    /// transaction's last one; `NoMemory` for want of memory. The table is then as before.
    pub fn take(&mut self, lsn: Lsn, body: &Record) -> Result<Option<Committed>, TableError>
        requires { self.old.last.0 < lsn.0 }
        ensures bad_link { RefusesExactly (fault_in self.old.txns body.now) lsn result }
        ensures commit { IfOk result (λ c. c ≡ commit_in self.old.txns body.now) }
        ensures value { OnOk result (self.new ≡ record { floor = self.old.floor; last = lsn; txns = with_records self.old.txns ((lsn, body.now) ∷ []) }) }
        ensures stands { (base : List PendingTxn) (records : List Logged) → StandsFor self.old base records → OnOk result (StandsFor self.new base (records ++ (lsn, body.now) ∷ [])) }
        ensures commits { (base : List PendingTxn) (records : List Logged) → StandsFor self.old base records → IfOk result (λ c. commits base (records ++ (lsn, body.now) ∷ []) ≡ commits base records ++ one_or_none c) }
        ensures err { OnErr result (self.new ≡ self.old) }
    {
        let commit = steps::take(self.alloc, &mut self.txns, lsn, body)?;
        self.last = lsn;
        Ok(commit)
    }

    /// Takes back the records above a position. What they ended is pending again. It takes no memory.
    pub fn cut_to(&mut self, lsn: Lsn)
        requires { self.old.floor.0 ≤ lsn.0 }
        ensures value { self.new ≡ record { floor = self.old.floor; last = lesser lsn self.old.last; txns = cut lsn self.old.txns } }
        ensures stands { (base : List PendingTxn) (records : List Logged) → StandsFor self.old base records → StandsFor self.new base (to lsn records) }
    {
        steps::cut_all(&mut self.txns, lsn);
        self.last = lesser(lsn, self.last);
    }

    /// Raises the floor to a position: what was pending there is then the base, and what ended at or below it is
    /// forgotten. At or below the floor it does nothing. It takes no memory.
    pub fn forget_below(&mut self, lsn: Lsn)
        ensures low { lsn.0 ≤ self.old.floor.0 → self.new ≡ self.old }
        ensures value { self.old.floor.0 < lsn.0 → self.new ≡ record { floor = lsn; last = greater lsn self.old.last; txns = recent lsn self.old.txns } }
        ensures stands { (base : List PendingTxn) (records : List Logged) → StandsFor self.old base records → self.old.floor.0 < lsn.0 → StandsFor self.new (pending base (to lsn records)) (behind lsn records) }
    {
        if lsn.0 <= self.floor.0 {
            return;
        }
        steps::keep_recent(&mut self.txns, lsn);
        self.floor = lsn;
        self.last = greater(lsn, self.last);
    }

    /// The transactions that are pending at a position, by rising transaction, with their operations up to there.
    ///
    /// # Errors
    /// `NoMemory` for want of memory.
    pub fn pending(&self, lsn: Lsn) -> Result<Pending, NoMemory>
        requires from_floor { self.now.floor.0 ≤ lsn.0 }
        requires to_last { lsn.0 ≤ self.now.last.0 }
        ensures value { IfOk result (λ p. p ≡ pending_in (cut lsn self.now.txns)) }
        ensures stands { (base : List PendingTxn) (records : List Logged) → StandsFor self.now base records → IfOk result (λ p. p ≡ pending base (to lsn records)) }
    {
        steps::pending_at(self.alloc, &self.txns, lsn)
    }
}

fn lesser(a: Lsn, b: Lsn) -> Lsn
    ensures { result ≡ lesser a b }
{
    if a.0 <= b.0 { a } else { b }
}

fn greater(a: Lsn, b: Lsn) -> Lsn
    ensures { result ≡ greater a b }
{
    if a.0 <= b.0 { b } else { a }
}
