ghost use Rattle.std.specs.Prelude.{◌≡◌, ◌≢◌, ◌↔◌, ◌≤◌, [], ◌∷◌, true, false, length, is_err, Result, Ok, Err, OnOk, OnErr, IfOk, IsErrOf, Some, None, ◌||◌, if◌then◌else◌};
ghost use Rattle.rc_base.specs.Counts.{Counted};
ghost use Rattle.disk_model.specs.Disk.{Areas, Changes, Follows, Only, Each};
ghost use Rattle.gated_log.specs.declared.error.LogError.TheVariants as log_errors;
ghost use Rattle.gated_log.specs.Blocks.{Keeps, open_blocks};
ghost use Rattle.gated_log.specs.Log.{IsSettled, StaysElsewhere, placed_from};
ghost use Rattle.barrier_group.specs.Group.{spelled};
ghost use Rattle.txn_table.specs.Log.{IsLog};
ghost use Rattle.log_store.specs.declared.error.RecoverError.TheVariants as errors;
ghost use Rattle.log_store.specs.declared.kept.Kept.{Kept as KeptValue};
ghost use Rattle.log_store.specs.Answers.{Finds};
ghost use Rattle.log_store.specs.Durable as spec;
ghost use Rattle.log_store.specs.Durable.{durable, durable_of, blocks_in, StandFor, StandForOneOf, KeepsSlots};
ghost use Rattle.log_store.specs.Growth.{GoesOn, after, new_log};
ghost use Rattle.log_store.specs.Store.{IsOpenOn, IsTaken, kept_as, KeepsOrBegins, SlotsStay};

use crate::durable::Durable;
use crate::error::RecoverError;
use crate::fold::read_area;
use crate::kept::Kept;
use crate::reading::second_holds;
use barrier_group::Group;
use disk_model::{Area, Disk, LOG0, LOG1};
use gated_log::{Blocks, GatedLog, LogError};
use log_records::{Items, Physical};
use rc_base::Epoch;
use std::alloc::Global;
use std::marker::Model;

/// The open log of a replica. It keeps no record in memory.
#[derive(Drop)]
pub struct LogStore {
    log: GatedLog,
    identity: u128,
}

impl Model for LogStore {
    ghost use Rattle.log_store.specs.Store.{Store};

    ghost Value = { Store };

    ghost view = { λ s. record { log = s.log; identity = s.identity } };
}

impl LogStore {
    /// Opens the log that the disk holds, and reads it whole. On a disk with no log it begins a new one with the identity
    /// `partition`.
    ///
    /// # Errors
    /// `Corrupt` exactly where what the disk holds isn't a log's, with the area and the place of the block; `Disk` where
    /// the disk failed, `NoMemory` for want of memory. What the disk holds is as before then, or the new log.
    pub fn recover<D: Disk>(
        alloc: Global,
        disk: &mut D,
        partition: u128,
    ) -> Result<(LogStore, Durable), RecoverError>
        ensures stop { Follows (KeepsOrBegins partition) (D.images disk.old) (D.images disk.new) }
        ensures found { IfOk result (λ r. StandFor (kept_as r.0.identity r.1) (D.images disk.new)) }
        ensures opened { IfOk result (λ r. IsOpenOn r.0 (D.images disk.new)) }
        ensures not_closed { IfOk result (λ r. r.0.log.closed ≡ false) }
        ensures log { IfOk result (λ r. IsLog r.1.records) }
        ensures corrupt { (area at : _) → IsErrOf result (errors.Corrupt area at) → Each (D.images disk.new) (λ c. durable c ≡ Err (record { area = area; at = at })) }
        ensures durable { (result ≢ Err errors.Disk) → (result ≢ Err errors.NoMemory) → Only (D.seen disk.new) (D.images disk.new) }
        ensures slots { OnOk result (SlotsStay (D.seen disk.old) (D.seen disk.new)) }
        ensures cause { Counted (D.faults disk.old) (D.faults disk.new) (IsErrOf result errors.Disk) }
        ensures marks { D.marks disk.new ≡ D.marks disk.old }
    {
        let (log0, zero) = mount(alloc, disk, LOG0)?;
        let (log1, one) = mount(alloc, disk, LOG1)?;
        let (log, kept) = choose(alloc, log0, &zero, log1, &one)?;
        match kept.identity {
            None => begin(alloc, log, disk, partition),
            Some(identity) => Ok((
                LogStore { log, identity },
                Durable {
                    fence: kept.fence,
                    records: kept.records,
                },
            )),
        }
    }

    /// The identity of the log, which was given to it when it was begun.
    pub fn identity(&self) -> u128
        ensures { result ≡ self.now.identity }
    {
        self.identity
    }

    /// Appends the records of the group as one block. They are Fences and logical records that go on with the log. An
    /// empty group makes no call of the disk. At `Ok` the group is empty.
    ///
    /// # Errors
    /// `Closed` exactly where the group isn't empty and an earlier call on this log failed; `Disk` where the disk failed,
    /// `NoMemory` for want of memory. After an error the group is as before, and the log is closed; the disk holds what it
    /// held before, or that and the records of the group.
    pub fn append<D: Disk>(&mut self, disk: &mut D, group: &mut Group) -> Result<(), LogError>
        requires fits { length (spelled group.old) ≤ 1048576 }

        // Log and disk stand as `recover` or `append` left them.
        requires opened { self.old.log.closed ≡ false → IsOpenOn self.old (D.images disk.old) }

        requires goes_on { self.old.log.closed ≡ false → (v : KeptValue) × StandFor v (D.images disk.old) × GoesOn v group.old }

        ensures stop { self.old.log.closed ≡ false → (v : KeptValue) → StandFor v (D.images disk.old) → StandForOneOf v (after v group.old) (D.images disk.new) }
        ensures ok { OnOk result ((v : KeptValue) → StandFor v (D.images disk.old) → StandFor (after v group.old) (D.images disk.new)) }
        ensures opened { self.new.log.closed ≡ false → IsOpenOn self.new (D.images disk.new) }
        ensures durable { group.old ≢ [] → OnOk result (Only (D.seen disk.new) (D.images disk.new)) }
        ensures untouched { self.old.log.closed ≡ true → disk.new ≡ disk.old }
        ensures slots { Follows KeepsSlots (D.images disk.old) (D.images disk.new) }
        ensures slots_seen { OnOk result (SlotsStay (D.seen disk.old) (D.seen disk.new)) }
        ensures emptied { OnOk result (group.new ≡ []) }
        ensures group { OnErr result (group.new ≡ group.old) }
        ensures identity { self.new.identity ≡ self.old.identity }
        ensures closed { self.new.log.closed ≡ (self.old.log.closed || is_err result) }
        ensures closed_before { IsErrOf result log_errors.Closed ↔ ((self.old.log.closed ≡ true) × (group.old ≢ [])) }
        ensures cause { Counted (D.faults disk.old) (D.faults disk.new) (IsErrOf result log_errors.Disk) }
        ensures marks { D.marks disk.new ≡ D.marks disk.old }
    {
        group.flush(&mut self.log, disk)
    }
}

// Opens the log of one area.
fn mount<D: Disk>(
    alloc: Global,
    disk: &mut D,
    area: Area,
) -> Result<(GatedLog, Blocks), RecoverError>
    ensures stop { Follows (Changes area Keeps) (D.images disk.old) (D.images disk.new) }
    ensures placed { IfOk result (λ r. Each (D.images disk.new) (λ c. r.1 ≡ blocks_in (c area))) }
    ensures settled { IfOk result (λ r. IsSettled (D.images disk.new) r.0) }
    ensures log { IfOk result (λ r. (r.0.area ≡ area) × (r.0.closed ≡ false)) }
    ensures durable { OnOk result (Only (D.seen disk.new) (D.images disk.new)) }
    ensures elsewhere { OnOk result (StaysElsewhere area (D.seen disk.old) (D.seen disk.new)) }
    ensures not_corrupt { (at place : _) → IsErrOf result (errors.Corrupt at place) → ⊥ }
    ensures cause { Counted (D.faults disk.old) (D.faults disk.new) (IsErrOf result errors.Disk) }
    ensures marks { D.marks disk.new ≡ D.marks disk.old }
{
    match GatedLog::mount(alloc, disk, area) {
        Ok(opened) => Ok(opened),
        Err(e) => Err(failed(e)),
    }
}

// Why a log wasn't opened or begun, where it isn't closed.
fn failed(e: LogError) -> RecoverError
    requires { e ≢ log_errors.Closed }
    ensures disk { (result ≡ errors.Disk) ↔ (e ≡ log_errors.Disk) }
    ensures corrupt { (area at : _) → result ≢ errors.Corrupt area at }
{
    match e {
        LogError::Disk => RecoverError::Disk,
        LogError::NoMemory => RecoverError::NoMemory,
        LogError::Closed => unreachable!(),
    }
}

// Takes one of the log areas with these blocks, and what it holds.
fn choose(
    alloc: Global,
    log0: GatedLog,
    zero: &Blocks,
    log1: GatedLog,
    one: &Blocks,
) -> Result<(GatedLog, Kept), RecoverError>
    ensures log { IfOk result (λ r. r.0 ≡ (if spec.second_holds zero.now one.now then log1 else log0)) }
    ensures kept { IfOk result (λ r. durable_of zero.now one.now ≡ Ok r.1) }
    ensures corrupt { (area at : _) → IsErrOf result (errors.Corrupt area at) → durable_of zero.now one.now ≡ Err (record { area = area; at = at }) }
    ensures not_disk { IsErrOf result errors.Disk → ⊥ }
{
    if second_holds(alloc, zero.as_slice(), one.as_slice())? {
        let kept = read_area(alloc, LOG1, one.as_slice())?;
        Ok((log1, kept))
    } else {
        let kept = read_area(alloc, LOG0, zero.as_slice())?;
        Ok((log0, kept))
    }
}

// Begins a new log in the area of the log, which is the first log area and has no block.
fn begin<D: Disk>(
    alloc: Global,
    mut log: GatedLog,
    disk: &mut D,
    partition: u128,
) -> Result<(LogStore, Durable), RecoverError>
    requires log { (log.area ≡ 0) × (log.closed ≡ false) }
    requires settled { IsSettled (D.images disk.old) log }
    requires none { Each (D.images disk.old) (λ c. (open_blocks (c 0) ≡ []) × (open_blocks (c 1) ≡ [])) }
    ensures stop { Follows (KeepsOrBegins partition) (D.images disk.old) (D.images disk.new) }
    ensures found { IfOk result (λ r. StandFor (kept_as r.0.identity r.1) (D.images disk.new)) }
    ensures opened { IfOk result (λ r. IsOpenOn r.0 (D.images disk.new)) }
    ensures not_closed { IfOk result (λ r. r.0.log.closed ≡ false) }
    ensures log { IfOk result (λ r. IsLog r.1.records) }
    ensures not_corrupt { (at place : _) → IsErrOf result (errors.Corrupt at place) → ⊥ }
    ensures durable { OnOk result (Only (D.seen disk.new) (D.images disk.new)) }
    ensures slots { OnOk result (SlotsStay (D.seen disk.old) (D.seen disk.new)) }
    ensures cause { Counted (D.faults disk.old) (D.faults disk.new) (IsErrOf result errors.Disk) }
    ensures marks { D.marks disk.new ≡ D.marks disk.old }
{
    let mut group = Group::new(alloc);
    group.push(Physical::Head {
        generation: 1,
        partition,
    })?;
    match group.flush(&mut log, disk) {
        Ok(()) => Ok((
            LogStore {
                log,
                identity: partition,
            },
            Durable {
                fence: Epoch { loss: 0, number: 0 },
                records: Items::new(alloc),
            },
        )),
        Err(e) => Err(failed(e)),
    }
}
