ghost use Rattle.std.specs.Prelude.{◌≡◌, ◌≢◌, ◌↔◌, ◌+◌, ◌≤◌, [], ◌∷◌, ◌++◌, true, false, length, is_err, Ok, OnOk, OnErr, IsErrOf, IsTrue};
ghost use Rattle.rc_base.specs.Counts.{Counted};
ghost use Rattle.disk_model.specs.Disk.{Changes, Follows, Only};
ghost use Rattle.gated_log.specs.declared.error.LogError.TheVariants as errors;
ghost use Rattle.gated_log.specs.Blocks.{Gains, KeepsOrGains};
ghost use Rattle.gated_log.specs.Log.{IsSettled, StaysElsewhere};
ghost use Rattle.log_records.specs.Spelling.{PhysicalFits};
ghost use Rattle.barrier_group.specs.Group.{spelled, AllPhysical};

use disk_model::Disk;
use gated_log::{GatedLog, LogError};
use log_records::{Physical, encode, physical_in_range};
use rc_base::NoMemory;
use std::alloc::Global;
use std::marker::Model;

/// Physical records that are to go into a log as one block, in the order in which they were pushed. Contracts see the
/// list of them.
#[derive(Drop)]
pub struct Group {
    items: Vec<Physical>,
    payload: Vec<u8>,
}

impl Model for Group {
    ghost use Rattle.std.specs.Prelude.{◌≡◌, List};
    ghost use Rattle.log_records.specs.declared.record.Physical.{Physical as PhysicalValue};
    ghost use Rattle.barrier_group.specs.Group.{spelled, AllPhysical};

    ghost Value = { List PhysicalValue };

    ghost view = { λ g. g.items.items };

    ghost invariant = { λ g. (g.payload.items ≡ spelled g.items.items) × AllPhysical g.items.items };
}

impl Group {
    /// An empty group. It takes no memory.
    pub fn new(alloc: Global) -> Group
        ensures { result ≡ [] }
    {
        Group {
            items: Vec::new(alloc),
            payload: Vec::new(alloc),
        }
    }

    /// One more record, behind the others. It has a spelling: `physical_fits` tests it.
    ///
    /// # Errors
    /// `NoMemory`, and then the group is as before.
    pub fn push(&mut self, item: Physical) -> Result<(), NoMemory>
        requires { PhysicalFits item }
        ensures ok { OnOk result (self.new ≡ self.old ++ item ∷ []) }
        ensures err { OnErr result (self.new ≡ self.old) }
    {
        physical_in_range(&item);
        self.items.reserve(1)?;
        encode(&item, &mut self.payload)?;
        let _ = self.items.push(item);
        Ok(())
    }

    /// The records.
    pub fn as_slice(&self) -> &[Physical]
        ensures items { result.now ≡ self.now }
        // Each has one spelling.
        ensures physical { AllPhysical self.now }
    {
        &self.items
    }

    /// How many bytes their spellings have together.
    pub fn payload_len(&self) -> usize
        ensures { result ≡ length (spelled self.now) }
    {
        self.payload.len()
    }

    pub fn is_empty(&self) -> bool
        ensures { IsTrue result ↔ (self.now ≡ []) }
    {
        self.items.is_empty()
    }

    /// Appends a block with the spellings of the records, one after another, to the log. An empty group makes no call of
    /// the disk. The spellings have at most 1,048,576 bytes together. At `Ok` the group is empty.
    ///
    /// # Errors
    /// `Closed` exactly where the group isn't empty and an earlier call on this log failed; `Disk` where the disk failed,
    /// `NoMemory` for want of memory. After an error the group is as before, and the log is closed; the disk has the blocks
    /// from before, or those and this one.
    pub fn flush<D: Disk>(&mut self, log: &mut GatedLog, disk: &mut D) -> Result<(), LogError>
        requires fits { length (spelled self.old) ≤ 1048576 }

        // Log and disk stand as `mount`, `fresh` or `append` left them.
        requires settled { log.old.closed ≡ false → IsSettled (D.images disk.old) log.old }

        ensures ok { OnOk result (self.new ≡ []) }
        ensures err { OnErr result (self.new ≡ self.old) }
        ensures physical { AllPhysical self.old }

        // No call of the disk.
        ensures empty { self.old ≡ [] → (result ≡ Ok tt) × (log.new ≡ log.old) × (disk.new ≡ disk.old) }
        ensures untouched { log.old.closed ≡ true → disk.new ≡ disk.old }

        // A block.
        ensures stop { self.old ≢ [] → Follows (Changes log.old.area (KeepsOrGains (spelled self.old))) (D.images disk.old) (D.images disk.new) }
        ensures gains { self.old ≢ [] → OnOk result (Follows (Changes log.old.area (Gains (spelled self.old))) (D.images disk.old) (D.images disk.new)) }
        ensures settled { self.old ≢ [] → OnOk result (IsSettled (D.images disk.new) log.new) }
        ensures durable { self.old ≢ [] → OnOk result (Only (D.seen disk.new) (D.images disk.new)) }
        ensures elsewhere { OnOk result (StaysElsewhere log.old.area (D.seen disk.old) (D.seen disk.new)) }
        ensures end { self.old ≢ [] → OnOk result (log.new.end ≡ log.old.end + 5 + length (spelled self.old)) }
        ensures area { log.new.area ≡ log.old.area }
        ensures closed { self.old ≢ [] → log.new.closed ≡ is_err result }
        ensures closed_before { self.old ≢ [] → IsErrOf result errors.Closed ↔ (log.old.closed ≡ true) }
        ensures cause { Counted (D.faults disk.old) (D.faults disk.new) (IsErrOf result errors.Disk) }
        ensures marks { D.marks disk.new ≡ D.marks disk.old }
    {
        if self.is_empty() {
            return Ok(());
        }
        log.append(disk, &self.payload)?;
        self.items.clear();
        self.payload.clear();
        Ok(())
    }
}
