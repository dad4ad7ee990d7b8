ghost use Rattle.std.specs.Prelude.{◌≡◌, ◌≢◌, ◌+◌, ◌<◌, ◌^◌, [], false, None, Ok, Err, IfOk, OnOk, IsErrOf};
ghost use Rattle.rc_base.specs.Counts.{Counted};
ghost use Rattle.rc_base.specs.Ids.{no_epoch};
ghost use Rattle.disk_model.specs.Disk.{Follows, Only, Each};
ghost use Rattle.log_store.specs.declared.error.RecoverError.TheVariants as recover_errors;
ghost use Rattle.log_store.specs.declared.kept.Kept.{Kept};
ghost use Rattle.log_store.specs.Durable.{durable, StandFor, StandForOneOf, KeepsSlots};
ghost use Rattle.log_store.specs.Growth.{after};
ghost use Rattle.log_store.specs.Store.{IsOpenOn, KeepsOrBegins, SlotsStay};
ghost use Rattle.txn_front.specs.Front.{nothing};
ghost use Rattle.replica.specs.declared.error.StepError.TheVariants as errors;
ghost use Rattle.replica_model.specs.declared.role.Role.TheVariants.{Other};
ghost use Rattle.replica.specs.Open.{AgreesWith, AreSame};
ghost use Rattle.txn_table.specs.Whole.{stable_in};
ghost use Rattle.replica.specs.Step as spec;
ghost use Rattle.replica.specs.Step.{MayStep, block, outcome, quiet, stepped};

use crate::error::StepError;
use crate::mounting::{last_epoch, read};
use coll_model::State;
use disk_model::Disk;
use log_store::{LogStore, RecoverError};
use rc_base::{Epoch, Lsn, ReplicaId};
use replica_model::{Commits, Outcome, Role, StepEvent};
use std::alloc::Global;
use std::marker::Model;
use txn_front::Front;

/// An open replica. It keeps no record of its log in memory.
#[derive(Drop)]
pub struct Replica {
    pub(crate) alloc: Global,
    pub(crate) id: ReplicaId,
    pub(crate) log: LogStore,
    pub(crate) fence: Epoch,
    pub(crate) epoch: Epoch,
    pub(crate) last: Lsn,
    pub(crate) stable: Lsn,
    pub(crate) shown: u64,
    pub(crate) contents: State,
    pub(crate) ahead: Commits,
    pub(crate) role: Role,
    pub(crate) front: Front,
}

impl Model for Replica {
    ghost use Rattle.replica.specs.Open.{Open};

    ghost Value = { Open };

    ghost view = { λ r. record { id = r.id; log = r.log; fence = r.fence; epoch = r.epoch; last = r.last; stable = r.stable; shown = r.shown; contents = r.contents; ahead = r.ahead; role = r.role; front = r.front } };
}

impl Replica {
    /// Opens the log that the disk holds, and shows what its Barriers say is stable. On a disk with no log it begins one
    /// with the identity `partition`. A replica that was opened is no primary.
    ///
    /// # Errors
    /// `Corrupt` exactly where what the disk holds isn't a log's, with the area and the place of the block; `Disk` where
    /// the disk failed, `NoMemory` for want of memory. What the disk holds is as before then, or the new log.
    pub fn mount<D: Disk>(
        alloc: Global,
        disk: &mut D,
        id: ReplicaId,
        partition: u128,
    ) -> Result<(Replica, Outcome), RecoverError>
        ensures stop { Follows (KeepsOrBegins partition) (D.images disk.old) (D.images disk.new) }
        ensures opened { IfOk result (λ r. IsOpenOn r.0.log (D.images disk.new)) }
        ensures not_closed { IfOk result (λ r. r.0.log.log.closed ≡ false) }
        ensures agrees { IfOk result (λ r. (v : Kept) × StandFor v (D.images disk.new) × AgreesWith r.0 v × (r.0.stable.0 ≡ stable_in v.records)) }
        ensures fresh { IfOk result (λ r. (r.0.id ≡ id) × (r.0.role ≡ Other) × (r.0.front ≡ nothing no_epoch)) }
        ensures outcome { IfOk result (λ r. r.1 ≡ quiet r.0 None) }
        ensures corrupt { (area at : _) → IsErrOf result (recover_errors.Corrupt area at) → Each (D.images disk.new) (λ c. durable c ≡ Err (record { area = area; at = at })) }
        ensures durable { (result ≢ Err recover_errors.Disk) → (result ≢ Err recover_errors.NoMemory) → Only (D.seen disk.new) (D.images disk.new) }
        ensures slots { OnOk result (SlotsStay (D.seen disk.old) (D.seen disk.new)) }
        ensures cause { Counted (D.faults disk.old) (D.faults disk.new) (IsErrOf result recover_errors.Disk) }
        ensures marks { D.marks disk.new ≡ D.marks disk.old }
    {
        let (log, durable) = LogStore::recover(alloc, disk, partition)?;
        let records = durable.records.as_slice();
        let shown = read(alloc, records)?;
        let replica = Replica {
            alloc,
            id,
            log,
            fence: durable.fence,
            epoch: last_epoch(records),
            last: Lsn(records.len() as u64),
            stable: shown.stable,
            shown: shown.count,
            contents: shown.contents,
            ahead: shown.ahead,
            role: Role::Other,
            front: Front::new(alloc, Epoch { loss: 0, number: 0 }),
        };
        let outcome = replica.quiet(None);
        Ok((replica, outcome))
    }

    /// One step: what it logs goes to the disk as one block before anything of it is shown.
    ///
    /// # Errors
    /// `Disk` where the disk failed, which comes only in a step that logs; `NoMemory` for want of memory. The replica is
    /// closed then, and its owner drops it; the disk holds what it held before, or that and the records of the step.
    pub fn step<D: Disk>(&mut self, disk: &mut D, event: &StepEvent) -> Result<Outcome, StepError>
        requires not_closed { self.old.log.log.closed ≡ false }

        // Replica and disk stand as `mount` or `step` left them.
        requires opened { IsOpenOn self.old.log (D.images disk.old) }
        requires agrees { (v : Kept) × StandFor v (D.images disk.old) × AgreesWith self.old v }

        requires may { MayStep self.old event.now }
        requires room { self.old.last.0 + 2 < 2 ^ 48 }
        requires counted { self.old.front.begins + 1 < 2 ^ 64 }

        ensures outcome { IfOk result (λ told. told ≡ outcome self.old event.now) }
        ensures kept { OnOk result (AreSame self.new (record (stepped self.old event.now) { log = self.new.log })) }
        ensures agrees { OnOk result ((v : Kept) → StandFor v (D.images disk.old) → AgreesWith self.old v → StandFor (after v (block self.old event.now)) (D.images disk.new) × AgreesWith self.new (after v (block self.old event.now))) }
        ensures opened { OnOk result (IsOpenOn self.new.log (D.images disk.new)) }
        ensures not_closed { OnOk result (self.new.log.log.closed ≡ false) }
        ensures stop { (v : Kept) → StandFor v (D.images disk.old) → AgreesWith self.old v → StandForOneOf v (after v (block self.old event.now)) (D.images disk.new) }
        ensures untouched { block self.old event.now ≡ [] → disk.new ≡ disk.old }
        ensures only_logging { IsErrOf result errors.Disk → block self.old event.now ≢ [] }
        ensures slots { Follows KeepsSlots (D.images disk.old) (D.images disk.new) }
        ensures cause { Counted (D.faults disk.old) (D.faults disk.new) (IsErrOf result errors.Disk) }
        ensures marks { D.marks disk.new ≡ D.marks disk.old }
    {
        let (reply, bodies) = self.answer(event)?;
        let count = bodies.len() as u64;
        let mut block = self.block(event, bodies)?;
        self.append(disk, &mut block)?;
        Ok(self.change(event, reply, count)?)
    }

    /// Its number.
    pub fn id(&self) -> ReplicaId
        ensures { result ≡ self.now.id }
    {
        self.id
    }

    /// How many commits it shows.
    pub fn shown(&self) -> u64
        ensures { result ≡ self.now.shown }
    {
        self.shown
    }

    pub fn role(&self) -> Role
        ensures { result ≡ self.now.role }
    {
        self.role
    }

    /// The position of the last record of its log, 0 where there is none.
    pub fn last(&self) -> Lsn
        ensures { result ≡ self.now.last }
    {
        self.last
    }

    /// The epoch of the last record of its log, 0.0 where there is none.
    pub fn epoch(&self) -> Epoch
        ensures { result ≡ self.now.epoch }
    {
        self.epoch
    }

    /// The epoch below which it refuses packets.
    pub fn fence(&self) -> Epoch
        ensures { result ≡ self.now.fence }
    {
        self.fence
    }

    /// The identity of its log.
    pub fn identity(&self) -> u128
        ensures { result ≡ self.now.log.identity }
    {
        self.log.identity()
    }

    /// The collections that it shows.
    pub fn contents(&self) -> &State
        ensures { result.now ≡ self.now.contents }
    {
        &self.contents
    }
}
