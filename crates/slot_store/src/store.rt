// Slots that are written piece by piece, and read.
ghost use Rattle.std.specs.Prelude.{◌≡◌, ◌↔◌, ◌+◌, ◌^◌, ◌<◌, ◌≤◌, ℕ, List, [], ◌++◌, length, take, drop, Option, Some, None, MatchOption, option_map, IfOk, OnOk, OnErr, IsErrOf, Err};
ghost use Rattle.std.specs.Option.{ForSome};
ghost use Rattle.rc_base.specs.Counts.{Counted};
ghost use Rattle.disk_model.specs.Disk.{Changes, Follows, Within, Only, Each};
ghost use Rattle.gated_log.specs.Log.{StaysElsewhere};
ghost use Rattle.slot_store.specs.Slots.{slot_area, Anything, HasPut, more_put, ChangesSlot, SlotHas, StaysBeside};
ghost use Rattle.slot_store.specs.declared.error.SlotError.TheVariants.{Short};

use crate::SlotError;
use disk_model::{Area, Disk, SLOT0, SLOT1};
use gated_log::LogError;
use rc_base::Bytes;
use std::alloc::Global;

/// A slot that is being written: its area, and how many bytes were put into it.
#[derive(Clone, Copy, Drop)]
struct Writing {
    area: Area,
    count: u64,
}

/// What is being written to the slots of a disk. It keeps no byte in memory.
#[derive(Drop)]
pub struct SlotStore {
    writing: Option<Writing>,
}

impl SlotStore {
    /// Nothing is being written. It takes no memory.
    pub fn new() -> SlotStore
        ensures { result.writing ≡ None }
    {
        SlotStore { writing: None }
    }

    /// Empties slot 0 or 1, so that pieces can be put into it. Whatever was being written before is given up.
    ///
    /// # Errors
    /// `Disk` where the disk failed, `NoMemory` for want of memory. Then nothing is being written.
    pub fn begin<D: Disk>(&mut self, disk: &mut D, slot: u8) -> Result<(), LogError>
        requires { slot < 2 }
        ensures stop { Follows (Changes (slot_area slot) Anything) (D.images disk.old) (D.images disk.new) }
        ensures begun { OnOk result (self.new.writing ≡ Some (record { area = slot_area slot; count = 0 })) }
        ensures put { OnOk result (HasPut self.new.writing (D.seen disk.new) []) }
        ensures given_up { OnErr result (self.new.writing ≡ None) }
        ensures elsewhere { OnOk result (StaysElsewhere (slot_area slot) (D.seen disk.old) (D.seen disk.new)) }
        ensures not_closed { IsErrOf result LogError.Closed → ⊥ }
        ensures cause { Counted (D.faults disk.old) (D.faults disk.new) (IsErrOf result LogError.Disk) }
        ensures marks { D.marks disk.new ≡ D.marks disk.old }
    {
        self.writing = None;
        let area = area_of(slot);
        disk.cut(area, 0)?;
        self.writing = Some(Writing { area, count: 0 });
        Ok(())
    }

    /// Puts a piece behind those before.
    ///
    /// # Errors
    /// `Closed` exactly where nothing is being written: no `begin` came, or a call since failed or finished. `Disk` where the
    /// disk failed, `NoMemory` for want of memory; then nothing is being written.
    pub fn put<D: Disk>(&mut self, disk: &mut D, piece: &[u8]) -> Result<(), LogError>
        // Nobody else wrote the slot since `begin`.
        requires { (bytes : List ℕ) × HasPut self.old.writing (D.seen disk.old) bytes }

        ensures stop { ChangesSlot self.old.writing (D.images disk.old) (D.images disk.new) }
        ensures goes_on { OnOk result (self.new.writing ≡ option_map (more_put (length piece.now)) self.old.writing) }
        ensures put { OnOk result ((bytes : List ℕ) → HasPut self.old.writing (D.seen disk.old) bytes → HasPut self.new.writing (D.seen disk.new) (bytes ++ piece.now)) }
        ensures given_up { OnErr result (self.new.writing ≡ None) }
        ensures elsewhere { OnOk result (StaysBeside self.old.writing (D.seen disk.old) (D.seen disk.new)) }
        ensures closed { IsErrOf result LogError.Closed ↔ (self.old.writing ≡ None) }
        ensures cause { Counted (D.faults disk.old) (D.faults disk.new) (IsErrOf result LogError.Disk) }
        ensures marks { D.marks disk.new ≡ D.marks disk.old }
    {
        let Some(writing) = self.writing else {
            return Err(LogError::Closed);
        };
        self.writing = None;
        disk.write_at(writing.area, writing.count, piece)?;
        self.writing = Some(Writing {
            area: writing.area,
            count: writing.count + piece.len() as u64,
        });
        Ok(())
    }

    /// Ends the writing. At `Ok` each stop from then on leaves the slot with exactly the pieces that were put.
    ///
    /// # Errors
    /// `Closed` exactly where nothing is being written. `Disk` where the disk failed, `NoMemory` for want of memory.
    pub fn finish<D: Disk>(&mut self, disk: &mut D) -> Result<(), LogError>
        ensures stop { Within (D.images disk.old) (D.images disk.new) }
        ensures whole { OnOk result ((bytes : List ℕ) → HasPut self.old.writing (D.seen disk.old) bytes → SlotHas self.old.writing bytes (D.images disk.new)) }
        ensures durable { OnOk result (Only (D.seen disk.new) (D.images disk.new)) }
        ensures seen { D.seen disk.new ≡ D.seen disk.old }
        ensures ended { self.new.writing ≡ None }
        ensures closed { IsErrOf result LogError.Closed ↔ (self.old.writing ≡ None) }
        ensures cause { Counted (D.faults disk.old) (D.faults disk.new) (IsErrOf result LogError.Disk) }
        ensures marks { D.marks disk.new ≡ D.marks disk.old }
    {
        if self.writing.is_none() {
            return Err(LogError::Closed);
        }
        self.writing = None;
        disk.sync()?;
        Ok(())
    }

    /// So many bytes of slot 0 or 1, from a place on.
    ///
    /// # Errors
    /// `Short` exactly where the slot ends before them, with its length. `Disk` where the disk failed, `NoMemory` for want of
    /// memory.
    pub fn read<D: Disk>(
        alloc: Global,
        disk: &mut D,
        slot: u8,
        at: u64,
        len: u64,
    ) -> Result<Bytes, SlotError>
        requires slot { slot < 2 }
        requires range { at + len < 2 ^ 63 }
        ensures read { IfOk result (λ bytes. ForSome (D.seen disk.old) (λ s. bytes ≡ take len (drop at (s (slot_area slot))))) }
        ensures long { OnOk result (ForSome (D.seen disk.old) (λ s. at + len ≤ length (s (slot_area slot)))) }
        ensures len { IfOk result (λ bytes. length bytes ≡ len) }
        ensures short { (end : ℕ) → result ≡ Err (Short end) → ForSome (D.seen disk.old) (λ s. (end ≡ length (s (slot_area slot))) × (end < at + len)) }
        ensures seen { D.seen disk.new ≡ D.seen disk.old }
        ensures stop { Within (D.images disk.old) (D.images disk.new) }
        ensures cause { Counted (D.faults disk.old) (D.faults disk.new) (IsErrOf result SlotError.Disk) }
        ensures marks { D.marks disk.new ≡ D.marks disk.old }
    {
        let area = area_of(slot);
        let end = disk.len(area)?;
        if end < at + len {
            return Err(SlotError::Short { len: end });
        }
        let mut bytes = Vec::new(alloc);
        bytes
            .resize(len as usize, 0)
            .map_err(|_| SlotError::NoMemory)?;
        let count = disk.read_at(area, at, &mut bytes)?;
        if (count as u64) < len {
            return Err(SlotError::Short {
                len: at + count as u64,
            });
        }
        Ok(Bytes::from_vec(bytes))
    }
}

// The area of slot 0 or 1.
fn area_of(slot: u8) -> Area
    requires { slot < 2 }
    ensures { result ≡ slot_area slot }
{
    if slot == 0 { SLOT0 } else { SLOT1 }
}
