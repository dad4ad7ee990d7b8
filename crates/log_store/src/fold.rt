// The fold of an area: its blocks are read from the front.
ghost use Rattle.std.specs.Prelude.{◌≡◌, ◌==◌, ◌&&◌, ◌<◌, ◌+◌, ◌^◌, List, [], ◌∷◌, ◌++◌, true, length, IfOk, Option, None, Some, Ok};
ghost use Rattle.std.specs.Option.{is_none};
ghost use Rattle.txn_table.specs.Commits.{Logged, fault_in};
ghost use Rattle.txn_table.specs.Tables.{StandsFor};
ghost use Rattle.txn_table.specs.Log as rules;
ghost use Rattle.log_store.specs.Answers.{Finds};
ghost use Rattle.txn_table.specs.Epochs as order;
ghost use Rattle.log_store.specs.Fold as spec;
ghost use Rattle.log_store.specs.Fold.{told, step, folded, opening, opened, behind_block, behind_blocks, first_wrong, judged, kept_of, kept_behind, held_by};

use crate::error::RecoverError;
use crate::kept::{Kept, Row, Rows, items_from, last_epoch_of};
use crate::reading::records_at;
use disk_model::Area;
use gated_log::Block;
use log_records::{Items, Pending, Physical, Record};
use rc_base::{Epoch, Lsn, NoMemory};
use std::alloc::Global;
use txn_table::{Table, TableError};

// What stands behind the part of an area that was read: its identity, the greatest epoch of its Fence records, and its
// logical records.
#[derive(Drop)]
pub(crate) struct Standing {
    pub(crate) identity: u128,
    pub(crate) fenced: Epoch,
    pub(crate) rows: Rows,
}

// The greater of the two.
fn later(a: Epoch, b: Epoch) -> Epoch
    ensures { result ≡ order.later a b }
{
    if a < b { b } else { a }
}

// Whether a record of the epoch may stand behind one of the last epoch.
fn may_follow(last: Epoch, epoch: Epoch, body: &Record) -> bool
    ensures { result ≡ rules.may_follow last epoch body.now }
{
    match body {
        Record::EpochStart { epoch: named } => *named == epoch && last < epoch,
        _ => epoch == last,
    }
}

// Whether a record at this position may stand in the tail.
fn may_stand(lsn: u64, epoch: Epoch, body: &Record) -> bool
    ensures { result ≡ rules.may_stand lsn epoch body.now }
{
    match body {
        Record::Begin { txn } => txn.epoch == epoch,
        Record::Barrier { stable } => stable.0 < lsn,
        _ => true,
    }
}

// Whether the position is the next and the epoch may follow.
fn is_next(rows: &[Row], lsn: Lsn, epoch: Epoch, body: &Record) -> bool
    ensures { result ≡ ((lsn.0 == length rows.now + 1) && rules.may_follow (rules.last_epoch (spec.items_of rows.now)) epoch body.now) }
{
    lsn.0 == rows.len() as u64 + 1 && may_follow(last_epoch_of(rows), epoch, body)
}

// One more record of the block at this place.
fn take(
    mut standing: Standing,
    area: Area,
    place: u64,
    item: Physical,
) -> Result<Standing, RecoverError>
    ensures { Finds result (told area place (step place standing item)) }
{
    match item {
        Physical::Fence { epoch } => {
            standing.fenced = later(standing.fenced, epoch);
            Ok(standing)
        }
        Physical::Logical { lsn, epoch, body } => {
            if !is_next(standing.rows.as_slice(), lsn, epoch, &body) {
                return Err(RecoverError::Corrupt { area, at: place });
            }
            standing.rows.push(Row { place, epoch, body })?;
            Ok(standing)
        }
        _ => Err(RecoverError::Corrupt { area, at: place }),
    }
}

// The records of a block behind a head.
fn fold(
    mut standing: Standing,
    area: Area,
    place: u64,
    items: Vec<Physical>,
) -> Result<Standing, RecoverError>
    ensures { Finds result (told area place (folded place standing items.items)) }
{
    for item in items {
        standing = take(standing, area, place, item)?;
    }
    Ok(standing)
}

// The position of the first Reset, 0 where there is none.
fn reset_at(items: &[Physical]) -> u64
    ensures { result ≡ spec.reset_at items.now }
{
    for item in items {
        if let Physical::Reset { at, .. } = item {
            return at.0;
        }
    }
    0
}

// The records of the first block.
fn open(
    alloc: Global,
    area: Area,
    place: u64,
    mut items: Vec<Physical>,
) -> Result<Standing, RecoverError>
    ensures { Finds result (told area place (opened place items.items)) }
{
    let bound = reset_at(&items);
    if items.is_empty() {
        return Err(RecoverError::Corrupt { area, at: place });
    }
    match items.remove(0) {
        Physical::Head {
            generation,
            partition,
        } => {
            if generation == 0 || generation - 1 > bound {
                return Err(RecoverError::Corrupt { area, at: place });
            }
            fold(opening(alloc, partition), area, place, items)
        }
        _ => Err(RecoverError::Corrupt { area, at: place }),
    }
}

// What stands once a head was read.
fn opening(alloc: Global, partition: u128) -> Standing
    ensures { result ≡ spec.opening partition }
{
    Standing {
        identity: partition,
        fenced: Epoch { loss: 0, number: 0 },
        rows: Rows::new(alloc),
    }
}

fn fold_block(
    alloc: Global,
    standing: Option<Standing>,
    area: Area,
    block: &Block,
) -> Result<Standing, RecoverError>
    ensures { Finds result (told area block.now.place (behind_block standing block.now)) }
{
    let items = records_at(alloc, area, block)?;
    match standing {
        None => open(alloc, area, block.place, items),
        Some(standing) => fold(standing, area, block.place, items),
    }
}

fn fold_blocks(
    alloc: Global,
    area: Area,
    blocks: &[Block],
) -> Result<Option<Standing>, RecoverError>
    ensures { Finds result (behind_blocks area None blocks.now) }
{
    let mut standing = None;
    for block in blocks {
        standing = Some(fold_block(alloc, standing, area, block)?);
    }
    Ok(standing)
}

// Whether a row may stand in the tail at this position. The table knows the records before it, and takes its record then.
fn is_in_place(table: &mut Table, lsn: u64, row: &Row) -> Result<bool, NoMemory>
    requires { table.old.last.0 < lsn }
    ensures value { IfOk result (λ b. b ≡ (rules.may_stand lsn row.now.epoch row.now.body && is_none (fault_in table.old.txns row.now.body))) }
    ensures last { IfOk result (λ b. b ≡ true → table.new.last.0 ≡ lsn) }
    ensures stands { (records : List Logged) → StandsFor table.old [] records → IfOk result (λ b. b ≡ true → StandsFor table.new [] (records ++ (record { 0 = lsn }, row.now.body) ∷ [])) }
{
    if !may_stand(lsn, row.epoch, &row.body) {
        return Ok(false);
    }
    match table.take(Lsn(lsn), &row.body) {
        Ok(_) => Ok(true),
        Err(TableError::BadLink { .. }) => Ok(false),
        Err(TableError::NoMemory) => Err(NoMemory),
    }
}

// The place of the first row that may not stand in the tail.
fn wrong_place(alloc: Global, rows: &[Row]) -> Result<Option<u64>, NoMemory>
    ensures { IfOk result (λ at. at ≡ first_wrong [] rows.now) }
{
    let mut table = Table::new(alloc, Lsn(0), &Pending::new(alloc))?;
    for i in 0..rows.len() {
        let row = &rows[i];
        if !is_in_place(&mut table, i as u64 + 1, row)? {
            return Ok(Some(row.place));
        }
    }
    Ok(None)
}

// Judges the tail of an area that was folded.
fn judge(alloc: Global, area: Area, standing: Standing) -> Result<Kept, RecoverError>
    ensures { Finds result (kept_behind area (Some standing)) }
{
    if let Some(at) = wrong_place(alloc, standing.rows.as_slice())? {
        return Err(RecoverError::Corrupt { area, at });
    }
    let fence = later(standing.fenced, last_epoch_of(standing.rows.as_slice()));
    Ok(Kept {
        identity: Some(standing.identity),
        fence,
        records: items_from(alloc, standing.rows)?,
    })
}

// What the blocks of an area hold.
pub(crate) fn read_area(alloc: Global, area: Area, blocks: &[Block]) -> Result<Kept, RecoverError>
    ensures { Finds result (held_by area blocks.now) }
{
    match fold_blocks(alloc, area, blocks)? {
        Some(standing) => judge(alloc, area, standing),
        None => Ok(Kept {
            identity: None,
            fence: Epoch { loss: 0, number: 0 },
            records: Items::new(alloc),
        }),
    }
}
