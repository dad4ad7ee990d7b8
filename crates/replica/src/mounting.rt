// What a replica shows once its log was opened.
ghost use Rattle.std.specs.Prelude.{◌≡◌, ◌<◌, ◌∷◌, [], None, IfOk, OnOk};
ghost use Rattle.txn_table.specs.Commits.{fault_in, commit_in};
ghost use Rattle.txn_table.specs.Tables.{with_records};
ghost use Rattle.txn_table.specs.Log as logs;
ghost use Rattle.txn_table.specs.Log.{IsLog};
ghost use Rattle.txn_table.specs.Whole as whole;
ghost use Rattle.replica.specs.Reading.{IsRead, with_commit};

use crate::effects::apply_all;
use coll_model::State;
use log_records::{Pending, Record};
use rc_base::{Epoch, Lsn, NoMemory};
use replica_model::Commits;
use std::alloc::Global;
use txn_table::{Committed, Table, TableError};

// What was read of a log with this stable position: how many commits stand at or below it, their state, and the commits
// above it.
#[derive(Drop)]
pub(crate) struct Shown {
    pub(crate) stable: Lsn,
    pub(crate) count: u64,
    pub(crate) contents: State,
    pub(crate) ahead: Commits,
}

// Reads a log.
pub(crate) fn read(alloc: Global, records: &[(Epoch, Record)]) -> Result<Shown, NoMemory>
    requires log { IsLog records.now }
    ensures read { IfOk result (λ shown. IsRead shown records.now) }
    ensures stable { IfOk result (λ shown. shown.stable.0 ≡ whole.stable_in records.now) }
{
    let mut shown = Shown {
        stable: stable_in(records),
        count: 0,
        contents: State::empty(alloc),
        ahead: Commits::new(alloc),
    };
    let mut table = Table::new(alloc, Lsn(0), &Pending::new(alloc))?;
    for at in 0..records.len() {
        let lsn = Lsn(at as u64 + 1);
        let commit = take(&mut table, lsn, &records[at].1)?;
        add(&mut shown, lsn, commit)?;
    }
    Ok(shown)
}

// The next record of a log.
fn take(table: &mut Table, lsn: Lsn, body: &Record) -> Result<Option<Committed>, NoMemory>
    requires rising { table.old.last.0 < lsn.0 }
    requires linked { fault_in table.old.txns body.now ≡ None }
    ensures commit { IfOk result (λ commit. commit ≡ commit_in table.old.txns body.now) }
    ensures table { OnOk result (table.new ≡ record { floor = table.old.floor; last = lsn; txns = with_records table.old.txns ((lsn, body.now) ∷ []) }) }
{
    match table.take(lsn, body) {
        Ok(commit) => Ok(commit),
        Err(TableError::NoMemory) => Err(NoMemory),
        Err(TableError::BadLink { .. }) => unreachable!(),
    }
}

// What commits at a position.
fn add(shown: &mut Shown, lsn: Lsn, commit: Option<Committed>) -> Result<(), NoMemory>
    requires { shown.old.count < lsn.0 }
    ensures { OnOk result (shown.new ≡ with_commit lsn.0 commit shown.old) }
{
    let Some(commit) = commit else {
        return Ok(());
    };
    if shown.stable.0 < lsn.0 {
        shown.ahead.push(commit)?;
    } else {
        apply_all(&mut shown.contents, commit.ops.as_slice())?;
        shown.count += 1;
    }
    Ok(())
}

// The greatest position that a Barrier tells as stable.
fn stable_in(records: &[(Epoch, Record)]) -> Lsn
    ensures { result.0 ≡ whole.stable_in records.now }
{
    let mut stable = Lsn(0);
    for (_, body) in records {
        if let Record::Barrier { stable: told } = body
            && stable.0 < told.0
        {
            stable = *told;
        }
    }
    stable
}

// The epoch of the last record, 0.0 where there is none.
pub(crate) fn last_epoch(records: &[(Epoch, Record)]) -> Epoch
    ensures { result ≡ logs.last_epoch records.now }
{
    match records.last() {
        Some(item) => item.0,
        None => Epoch { loss: 0, number: 0 },
    }
}
