ghost use Rattle.std.specs.Prelude.{◌≡◌, IfOk};
ghost use Rattle.txn_table.specs.Log.{last_epoch};
ghost use Rattle.log_store.specs.Fold.{items_of};

use log_records::{Items, Record};
use rc_base::{Epoch, NoMemory, Seq};
use std::alloc::Global;

/// What a disk holds of a log: its identity, once it was begun; its fence, which is the greatest epoch among its Fence
/// records and its records; and its records, of which the first has the position 1.
#[derive(Drop)]
pub struct Kept {
    pub identity: Option<u128>,
    pub fence: Epoch,
    pub records: Items,
}

// A logical record and the place of the block that it stands in.
#[derive(Drop)]
pub(crate) struct Row {
    pub(crate) place: u64,
    pub(crate) epoch: Epoch,
    pub(crate) body: Record,
}

// The rows of an area in their order.
pub(crate) type Rows = Seq<Row>;

// The epoch of the last row, 0.0 where there is none.
pub(crate) fn last_epoch_of(rows: &[Row]) -> Epoch
    ensures { result ≡ last_epoch (items_of rows.now) }
{
    match rows.last() {
        Some(row) => row.epoch,
        None => Epoch { loss: 0, number: 0 },
    }
}

// The rows without their places.
pub(crate) fn items_from(alloc: Global, rows: Rows) -> Result<Items, NoMemory>
    ensures { IfOk result (λ items. items ≡ items_of rows) }
{
    let mut items = Vec::new(alloc);
    for row in rows.into_vec() {
        items.push((row.epoch, row.body))?;
    }
    Ok(Items::from_vec(items))
}
