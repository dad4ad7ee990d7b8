// What the types of a record's numbers say.
ghost use Rattle.std.specs.Prelude.{◌<◌, ◌^◌};
ghost use Rattle.log_records.specs.Spelling.{EpochInRange, TxnInRange, LogicalInRange, PhysicalInRange};

use crate::record::{Physical, Record};
use rc_base::{Epoch, Lsn, TxnId};

fn lsn_in_range(lsn: Lsn)
    ensures { lsn.0 < 2 ^ 64 }
{}

fn epoch_in_range(epoch: Epoch)
    ensures { EpochInRange epoch }
{}

fn txn_in_range(txn: TxnId)
    ensures { TxnInRange txn }
{}

/// The numbers of a logical record are within their types. It does nothing: its contract is what a caller wants.
pub fn record_in_range(body: &Record)
    ensures { LogicalInRange body.now }
{
    match body {
        Record::Begin { txn } => txn_in_range(*txn),
        Record::Operation { txn, prev, .. } => {
            lsn_in_range(*prev);
            txn_in_range(*txn)
        }
        Record::End { txn, prev, .. } => {
            lsn_in_range(*prev);
            txn_in_range(*txn)
        }
        Record::Barrier { stable } => lsn_in_range(*stable),
        Record::EpochStart { epoch } => epoch_in_range(*epoch),
    }
}

/// The numbers of a physical record are within their types. It does nothing: its contract is what a caller wants.
pub fn physical_in_range(item: &Physical)
    ensures { PhysicalInRange item.now }
{
    match item {
        Physical::Logical { lsn, epoch, body } => {
            lsn_in_range(*lsn);
            epoch_in_range(*epoch);
            record_in_range(body)
        }
        Physical::Fence { epoch } => epoch_in_range(*epoch),
        Physical::TruncateTail { lsn } => lsn_in_range(*lsn),
        Physical::CheckpointDone { at, len, .. } => {
            lsn_in_range(*at);
            let _len = *len;
        }
        Physical::Reset { at, len, .. } => {
            lsn_in_range(*at);
            let _len = *len;
        }
        Physical::Head {
            generation,
            partition,
        } => {
            let _generation = *generation;
            let _partition = *partition;
        }
    }
}
