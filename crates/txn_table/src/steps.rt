ghost use Rattle.std.specs.Prelude.{◌≡◌, ◌<◌, ◌≤◌, ◌∷◌, [], length, map, filter, nat_le, true, IfOk, IfSome, IfNone, OnOk, OnErr, IsErrOf, slice_get};
ghost use Rattle.rc_base.specs.declared.ids.Epoch.{Epoch};
ghost use Rattle.log_records.specs.declared.record.Record.TheVariants.{Begin, Operation, End, EpochStart};
ghost use Rattle.txn_table.specs.declared.known.Known.{Known};
ghost use Rattle.rc_base.specs.Ids.{is_txn};
ghost use Rattle.txn_table.specs.Commits.{txn_lt, with_txn, begin_fault, link_fault, fault_in, commit_in, commit_of, pending_in, seen};
ghost use Rattle.txn_table.specs.Tables.{Rise, RiseByTxn, IsLinkedAt, place, RefusesExactly, with_records, cut, recent, trimmed};

use crate::committed::Committed;
use crate::error::TableError;
use crate::known::{Ending, Known};
use coll_model::{Op, Ops};
use log_records::{LoggedOps, Pending, PendingTxn, Record};
use rc_base::{Lsn, NoMemory, TxnId};
use std::alloc::Global;

/// The transactions that are pending at a base, by rising number.
pub fn from_pending(alloc: Global, pending: &[PendingTxn]) -> Result<Vec<Known>, NoMemory>
    ensures { IfOk result (λ v. v.items ≡ map (seen []) pending.now) }
{
    let mut txns = Vec::new(alloc);
    for txn in pending {
        txns.push(Known::from_pending(txn)?)?;
    }
    Ok(txns)
}

/// A record of the log. With an End that commits it answers the transaction and its operations.
pub fn take(
    alloc: Global,
    txns: &mut Vec<Known>,
    lsn: Lsn,
    body: &Record,
) -> Result<Option<Committed>, TableError>
    requires { Rise txns.old.items }
    ensures bad_link { RefusesExactly (fault_in txns.old.items body.now) lsn result }
    ensures commit { IfOk result (λ c. c ≡ commit_in txns.old.items body.now) }
    ensures ok { OnOk result (txns.new.items ≡ with_records txns.old.items ((lsn, body.now) ∷ [])) }
    ensures rise { Rise txns.new.items }
    ensures err { OnErr result (txns.new.items ≡ txns.old.items) }
{
    match body {
        Record::Begin { txn } => {
            take_begin(alloc, txns, lsn, *txn)?;
            Ok(None)
        }
        Record::Operation { txn, prev, op } => {
            take_operation(txns, lsn, *txn, *prev, op)?;
            Ok(None)
        }
        Record::End {
            txn,
            prev,
            committed,
        } => take_end(alloc, txns, lsn, *txn, *prev, *committed),
        Record::Barrier { stable: _ } => Ok(None),
        Record::EpochStart { epoch: _ } => {
            take_epoch(txns, lsn);
            Ok(None)
        }
    }
}

// A Begin.
fn take_begin(alloc: Global, txns: &mut Vec<Known>, lsn: Lsn, txn: TxnId) -> Result<(), TableError>
    requires { Rise txns.old.items }
    ensures bad_link { RefusesExactly (begin_fault (with_txn txn txns.old.items)) lsn result }
    ensures ok { OnOk result (txns.new.items ≡ with_records txns.old.items ((lsn, Begin txn) ∷ [])) }
    ensures rise { Rise txns.new.items }
    ensures err { OnErr result (txns.new.items ≡ txns.old.items) }
{
    let at = place_of(txns, txn);
    if let Some(known) = known_at(txns, at, txn) {
        return Err(TableError::BadLink {
            lsn,
            prev: Lsn(0),
            wanted: known.last(),
        });
    }
    let fresh = Known {
        txn,
        begin: lsn,
        ops: LoggedOps::new(alloc),
        ending: None,
    };
    txns.insert(at, fresh)?;
    Ok(())
}

// An Operation.
fn take_operation(
    txns: &mut Vec<Known>,
    lsn: Lsn,
    txn: TxnId,
    prev: Lsn,
    op: &Op,
) -> Result<(), TableError>
    requires { Rise txns.old.items }
    ensures bad_link { RefusesExactly (link_fault prev (with_txn txn txns.old.items)) lsn result }
    ensures ok { OnOk result (txns.new.items ≡ with_records txns.old.items ((lsn, Operation txn prev op.now) ∷ [])) }
    ensures rise { Rise txns.new.items }
    ensures err { OnErr result (txns.new.items ≡ txns.old.items) }
{
    let at = link(txns, lsn, txn, prev)?;
    let op = op.clone()?;
    let known = &mut txns[at];
    known.ops.push(lsn, op)?;
    Ok(())
}

// An End: its transaction with its operations, where it commits.
fn take_end(
    alloc: Global,
    txns: &mut Vec<Known>,
    lsn: Lsn,
    txn: TxnId,
    prev: Lsn,
    committed: bool,
) -> Result<Option<Committed>, TableError>
    requires { Rise txns.old.items }
    ensures bad_link { RefusesExactly (link_fault prev (with_txn txn txns.old.items)) lsn result }
    ensures commit { IfOk result (λ c. c ≡ commit_in txns.old.items (End txn prev committed)) }
    ensures ok { OnOk result (txns.new.items ≡ with_records txns.old.items ((lsn, End txn prev committed) ∷ [])) }
    ensures rise { Rise txns.new.items }
    ensures err { OnErr result (txns.new.items ≡ txns.old.items) }
{
    let at = link(txns, lsn, txn, prev)?;
    let commit = commit_at(alloc, &txns[at], txn, committed)?;
    let known = &mut txns[at];
    known.ending = Some(Ending::ByEnd(lsn));
    Ok(commit)
}

// The start of an epoch, which ends all that is pending.
fn take_epoch(txns: &mut Vec<Known>, lsn: Lsn)
    requires { Rise txns.old.items }
    ensures ok { (epoch : Epoch) → txns.new.items ≡ with_records txns.old.items ((lsn, EpochStart epoch) ∷ []) }
    ensures rise { Rise txns.new.items }
{
    end_all(txns, lsn);
}

fn end_all(txns: &mut Vec<Known>, lsn: Lsn)
    ensures { (epoch : Epoch) → txns.new.items ≡ with_records txns.old.items ((lsn, EpochStart epoch) ∷ []) }
{
    for known in txns.iter_mut() {
        known.end_with_epoch(lsn);
    }
}

/// Leaves the transactions as they were at a position.
pub fn cut_all(txns: &mut Vec<Known>, lsn: Lsn)
    requires { Rise txns.old.items }
    ensures cut { txns.new.items ≡ cut lsn txns.old.items }
    ensures rise { Rise txns.new.items }
{
    keep_begun(txns, lsn);
    trim_all(txns, lsn);
}

// Leaves those that began at or below a position.
fn keep_begun(txns: &mut Vec<Known>, lsn: Lsn)
    ensures { txns.new.items ≡ filter (λ known. nat_le known.begin.0 lsn.0) txns.old.items }
{
    txns.retain(|known| known.begin.0 <= lsn.0);
}

fn trim_all(txns: &mut Vec<Known>, lsn: Lsn)
    ensures { txns.new.items ≡ map (trimmed lsn) txns.old.items }
{
    for known in txns.iter_mut() {
        known.trim_to(lsn);
    }
}

/// Leaves the transactions that were pending at a position or begin behind it.
pub fn keep_recent(txns: &mut Vec<Known>, lsn: Lsn)
    requires { Rise txns.old.items }
    ensures recent { txns.new.items ≡ recent lsn txns.old.items }
    ensures rise { Rise txns.new.items }
{
    txns.retain(|known| known.ends_above(lsn));
}

/// The transactions that were pending at a position.
pub fn pending_at(alloc: Global, txns: &[Known], lsn: Lsn) -> Result<Pending, NoMemory>
    ensures { IfOk result (λ p. p ≡ pending_in (cut lsn txns.now)) }
{
    let mut pending = Pending::new(alloc);
    for known in txns {
        if known.was_pending(lsn) {
            pending.push(known.pending_at(alloc, lsn)?)?;
        }
    }
    Ok(pending)
}

// What commits with the End of a pending transaction.
fn commit_at(
    alloc: Global,
    known: &Known,
    txn: TxnId,
    committed: bool,
) -> Result<Option<Committed>, NoMemory>
    ensures { IfOk result (λ c. c ≡ commit_of committed txn (map (λ logged. logged.1) known.now.ops)) }
{
    if !committed {
        return Ok(None);
    }
    let ops = ops_alone(alloc, known.ops.as_slice())?;
    Ok(Some(Committed { txn, ops }))
}

// The operations without their positions.
fn ops_alone(alloc: Global, ops: &[(Lsn, Op)]) -> Result<Ops, NoMemory>
    ensures { IfOk result (λ out. out ≡ map (λ logged. logged.1) ops.now) }
{
    let mut out = Ops::new(alloc);
    for logged in ops {
        out.push(logged.1.clone()?)?;
    }
    Ok(out)
}

// The place of the first transaction that isn't below this one.
fn place_of(txns: &[Known], txn: TxnId) -> usize
    requires { Rise txns.now }
    ensures { result ≡ place txn txns.now }
{
    txns.partition_point(|known| is_below(known.txn, txn))
}

// Whether a transaction is below another.
fn is_below(a: TxnId, b: TxnId) -> bool
    ensures { result ≡ txn_lt a b }
{
    a < b
}

// The transaction, where it is known: it stands at its place.
fn known_at(txns: &[Known], at: usize, txn: TxnId) -> Option<&Known>
    requires place { at ≡ place txn txns.now }
    requires rise { Rise txns.now }
    ensures some { IfSome result (λ known. with_txn txn txns.now ≡ Some known.now) }
    ensures here { IfSome result (λ known. (slice_get txns.now at ≡ Some known.now) × (is_txn known.now.txn txn ≡ true)) }
    ensures none { IfNone result (with_txn txn txns.now ≡ None) }
{
    let known = txns.get(at)?;
    if known.txn == txn { Some(known) } else { None }
}

// The place of a transaction that is pending and whose last record stands at this position.
fn link(txns: &[Known], lsn: Lsn, txn: TxnId, prev: Lsn) -> Result<usize, TableError>
    requires { Rise txns.now }
    ensures ok { IfOk result (IsLinkedAt txns.now txn prev) }
    ensures bad_link { RefusesExactly (link_fault prev (with_txn txn txns.now)) lsn result }
{
    let at = place_of(txns, txn);
    let Some(known) = known_at(txns, at, txn) else {
        return Err(TableError::BadLink {
            lsn,
            prev,
            wanted: Lsn(0),
        });
    };
    let wanted = known.last();
    if known.ending.is_none() && prev.0 == wanted.0 {
        Ok(at)
    } else {
        Err(TableError::BadLink { lsn, prev, wanted })
    }
}
