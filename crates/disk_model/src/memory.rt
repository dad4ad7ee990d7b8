// A disk in memory, which can be made to fail at any call and to be left with some image.
ghost use Rattle.std.specs.Prelude.{◌≡◌, ◌≢◌, if◌then◌else◌, ◌-◌, ◌+◌, ◌^◌, ◌≤◌, ◌<◌, ℕ, [], ◌∷◌, ◌++◌, length, take, drop, true, false, Bool, Option, Some, None, Ok, Err, IsTrue, OnOk, OnErr, IfOk, IsErrOf, ◌||◌, nat_eq, nat_le, vec_capacity, vec_len, refl, ◌⊎◌};
ghost use Rattle.std.specs.Option.{ForSome, option_map};
ghost use Rattle.rc_base.specs.Counts.{Counted, Rose};
ghost use Rattle.disk_model.specs.Disk.{written, with_area, Torn, Cut, Changes, Follows, Within, Only, IsRead, Stays, Marks, after_arm, after_stop, nearer, counted_up, Turns};
ghost use Rattle.disk_model.specs.Changes.{held, room, done, reach, images_of, left_by, left_of, end_of, MayLeave};
ghost use Rattle.disk_model.specs.Kept.{is_spent, faults_after, after_call, after_sync, after_change, after_write, after_arming, after_crash, kept_at_first};
ghost use Rattle.disk_model.specs.Laws.{seen_is_one, each_fits};
ghost use Rattle.disk_model.specs.declared.disk.DiskError.TheVariants.{Failed, NoMemory};

use crate::change::{Change, Edit, apply_to, copy_all, leave, reserve, settle};
use crate::{Area, CrashDisk, Disk, DiskError};
use rc_base::Bytes;
use std::alloc::Global;

// The greatest length of an area in bytes.
const MAX_LEN: u64 = i64::MAX as u64;

/// A disk in memory.
///
/// It keeps its areas as they read, the areas as at the last sync, and the changes since then. `crash(pick)` starts
/// from the areas as at the last sync and takes the changes in their order: the digits of `pick` in base 3, the least
/// significant first, tell what becomes of each. At digit 0 it doesn't happen, at 1 it happens as asked; at 2 a write
/// happens with every byte 165, and a cut as asked. A write past the end of its area fills the gap with bytes 165.
#[derive(Drop)]
pub struct MemDisk {
    alloc: Global,
    shown: [Vec<u8>; 4],
    synced: [Vec<u8>; 4],
    pending: Vec<Change>,
    calls_left: Option<u64>,
    failed: bool,
    faults: u64,
    arms: u64,
    stops: u64,
    last: u64,
    ghost agrees: { failed ≡ false → held shown ≡ done pending.items (held synced) },
    ghost none_left: { failed ≡ true → calls_left ≡ Some 0 },
    ghost shown_room: { (a : ℕ) → reach a pending.items ≤ room shown a },
    ghost synced_room: { (a : ℕ) → reach a pending.items ≤ room synced a },
    ghost copied_room: { (a : ℕ) → length (held synced a) ≤ room shown a },
}

impl MemDisk {
    ghost use Rattle.disk_model.specs.KeptBy.{kept_by};

    /// An empty disk, which isn't armed. It takes no memory.
    pub fn new(alloc: Global) -> MemDisk
        ensures empty { ⟦<MemDisk as Disk>⟧.seen result ≡ Some (λ _. []) }
        ensures only { Only (⟦<MemDisk as Disk>⟧.seen result) (⟦<MemDisk as Disk>⟧.images result) }
        ensures faults { ⟦<MemDisk as Disk>⟧.faults result ≡ 0 }
        ensures marks { ⟦<MemDisk as Disk>⟧.marks result ≡ record { arms = 0; stops = 0; last = 0 } }
        ensures unarmed { ⟦<MemDisk as Disk>⟧.calls_left result ≡ None }
        ensures kept { kept_by result ≡ kept_at_first }
    {
        MemDisk {
            alloc,
            shown: [
                Vec::new(alloc),
                Vec::new(alloc),
                Vec::new(alloc),
                Vec::new(alloc),
            ],
            synced: [
                Vec::new(alloc),
                Vec::new(alloc),
                Vec::new(alloc),
                Vec::new(alloc),
            ],
            pending: Vec::new(alloc),
            calls_left: None,
            failed: false,
            faults: 0,
            arms: 0,
            stops: 0,
            last: 0,
        }
    }

    // Asks for a change. It is done at once, unless the disk was armed to fail at this call: then it is only pending.
    fn ask(&mut self, change: Change) -> Result<(), DiskError>
        requires { end_of change.edit < 2 ^ 63 }
        ensures done { OnOk result (held self.new.shown ≡ with_area change.area (left_of change.edit 1) (held self.old.shown)) }
        ensures stop { Follows (Changes change.area (MayLeave change.edit)) (images_of self.old.pending.items (held self.old.synced) (held self.old.shown)) (images_of self.new.pending.items (held self.new.synced) (held self.new.shown)) }
        ensures kept { ¬ IsErrOf result NoMemory → kept_by self.new ≡ after_change change (kept_by self.old) }
        ensures no_memory { IsErrOf result NoMemory → kept_by self.new ≡ kept_by self.old }
        ensures memory { IsErrOf result NoMemory → (held self.new.shown ≡ held self.old.shown) × (self.new.pending.items ≡ self.old.pending.items) × (self.new.faults ≡ self.old.faults) }
        ensures cause { Counted self.old.faults self.new.faults (IsErrOf result Failed) }
        ensures marks { (self.new.arms ≡ self.old.arms) × (self.new.stops ≡ self.old.stops) × (self.new.last ≡ self.old.last) }
        ensures turn { Turns self.old.calls_left self.new.calls_left result }
        ensures refused { IsErrOf result Failed → self.old.calls_left ≡ Some 0 }
        ensures faults { self.new.faults ≡ faults_after result self.old.faults }
    {
        if self.failed {
            return Err(fault(&mut self.faults));
        }
        let end = change.edit.end();
        take_room(
            &mut self.shown,
            &mut self.synced,
            &mut self.pending,
            change.area,
            end,
        )?;
        if !take_turn(&mut self.calls_left, &mut self.failed) {
            let _ = self.pending.push(change);
            return Err(fault(&mut self.faults));
        }
        apply_to(&mut self.shown, &change, 1);
        let _ = self.pending.push(change);
        Ok(())
    }
}

// Counts a call of the disk, and tells whether it is done. Where it isn't, an armed call has failed.
fn take_turn(calls_left: &mut Option<u64>, failed: &mut bool) -> bool
    ensures counts { calls_left.new ≡ option_map (λ n. n - 1) calls_left.old }
    ensures does { result ≡ true → (calls_left.old ≢ Some 0) × (failed.new ≡ failed.old) × (is_spent calls_left.old ≡ false) }
    ensures fails { result ≡ false → (calls_left.old ≡ Some 0) × (failed.new ≡ true) }
{
    match calls_left {
        None => true,
        Some(0) => {
            *failed = true;
            false
        }
        Some(calls) => {
            *calls -= 1;
            true
        }
    }
}

// The answer of a call that failed.
fn fault(faults: &mut u64) -> DiskError
    ensures failed { result ≡ Failed }
    ensures rose { Rose faults.old faults.new }
    ensures later { faults.old ≤ faults.new }
    ensures one_more { faults.new ≡ counted_up faults.old }
{
    *faults = faults.saturating_add(1);
    DiskError::Failed
}

// Takes room for one change more, which ends at this place.
fn take_room(
    shown: &mut [Vec<u8>],
    synced: &mut [Vec<u8>],
    pending: &mut Vec<Change>,
    area: Area,
    end: usize,
) -> Result<(), DiskError>
    requires four { (length shown.old ≡ 4) × (length synced.old ≡ 4) }
    ensures shown { held shown.new ≡ held shown.old }
    ensures synced { held synced.new ≡ held synced.old }
    ensures pending { pending.new.items ≡ pending.old.items }
    ensures shown_room { (a : ℕ) → room shown.old a ≤ room shown.new a }
    ensures synced_room { (a : ℕ) → room synced.old a ≤ room synced.new a }
    ensures enough { OnOk result ((end ≤ room shown.new area) × (end ≤ room synced.new area)) }
    ensures spare { OnOk result (vec_len pending.new < vec_capacity pending.new) }
    ensures err { OnErr result (result ≡ Err NoMemory) }
{
    reserve(shown, area, end).map_err(|_| DiskError::NoMemory)?;
    reserve(synced, area, end).map_err(|_| DiskError::NoMemory)?;
    pending.reserve(1).map_err(|_| DiskError::NoMemory)
}

// A copy of bytes that are to be written.
fn copy_of(alloc: Global, bytes: &[u8]) -> Result<Bytes, DiskError>
    ensures copy { IfOk result (λ b. b ≡ bytes.now) }
    ensures err { OnErr result (result ≡ Err NoMemory) }
{
    Bytes::from_slice(alloc, bytes).map_err(|_| DiskError::NoMemory)
}

// Copies of the area from a place on as much as the buffer takes.
fn copy_from(bytes: &[u8], at: u64, buf: &mut [u8]) -> usize
    ensures { IsRead (drop at bytes.now) result buf.old buf.new }
{
    if at >= bytes.len() as u64 {
        return 0;
    }
    let rest = &bytes[at as usize..];
    let count = buf.len().min(rest.len());
    buf[..count].copy_from_slice(&rest[..count]);
    count
}

impl Disk for MemDisk {
    ghost use Rattle.disk_model.specs.KeptBy.{kept_by};
    ghost use Rattle.disk_model.specs.declared.change.Edit.TheVariants.{Write, Shorten};

    ghost seen = { λ m. Some (held m.shown) };

    ghost images = { λ m. images_of m.pending.items (held m.synced) (held m.shown) };

    ghost faults = { λ m. m.faults };

    ghost marks = { λ m. record { arms = m.arms; stops = m.stops; last = m.last } };

    ghost calls_left = { λ m. m.calls_left };

    ghost seen_is_image = { λ m s is. seen_is_one m.pending.items (held m.synced) (held m.shown) s is };

    ghost area_fits = { λ m s is a. each_fits m.shown s is a };

    fn read_at(&mut self, area: Area, at: u64, buf: &mut [u8]) -> Result<usize, DiskError>
        ensures within { IfOk result (λ n. n ≤ length buf.old) }
        ensures read { IfOk result (λ n. ForSome (⟦<MemDisk as Disk>⟧.seen self.old) (λ s. IsRead (drop at (s area)) n buf.old buf.new)) }
        ensures seen { ⟦<MemDisk as Disk>⟧.seen self.new ≡ ⟦<MemDisk as Disk>⟧.seen self.old }
        ensures stop { Within (⟦<MemDisk as Disk>⟧.images self.old) (⟦<MemDisk as Disk>⟧.images self.new) }
        ensures memory { IsErrOf result NoMemory → Stays (⟦<MemDisk as Disk>⟧.seen self.old) (⟦<MemDisk as Disk>⟧.seen self.new) (⟦<MemDisk as Disk>⟧.images self.old) (⟦<MemDisk as Disk>⟧.images self.new) (⟦<MemDisk as Disk>⟧.faults self.old) (⟦<MemDisk as Disk>⟧.faults self.new) }
        ensures cause { Counted (⟦<MemDisk as Disk>⟧.faults self.old) (⟦<MemDisk as Disk>⟧.faults self.new) (IsErrOf result Failed) }
        ensures marks { ⟦<MemDisk as Disk>⟧.marks self.new ≡ ⟦<MemDisk as Disk>⟧.marks self.old }
        ensures turn { Turns (⟦<MemDisk as Disk>⟧.calls_left self.old) (⟦<MemDisk as Disk>⟧.calls_left self.new) result }

        // It fails at an armed call alone.
        ensures kept { kept_by self.new ≡ after_call (kept_by self.old) }
        ensures refused { OnErr result ((result ≡ Err Failed) × (⟦<MemDisk as Disk>⟧.calls_left self.old ≡ Some 0)) }
        ensures faults { ⟦<MemDisk as Disk>⟧.faults self.new ≡ faults_after result (⟦<MemDisk as Disk>⟧.faults self.old) }
    {
        if !take_turn(&mut self.calls_left, &mut self.failed) {
            return Err(fault(&mut self.faults));
        }
        Ok(copy_from(&self.shown[area.number() as usize], at, buf))
    }

    fn len(&mut self, area: Area) -> Result<u64, DiskError>
        ensures len { IfOk result (λ n. ForSome (⟦<MemDisk as Disk>⟧.seen self.old) (λ s. n ≡ length (s area))) }
        ensures fits { IfOk result (λ n. n < 2 ^ 63) }
        ensures seen { ⟦<MemDisk as Disk>⟧.seen self.new ≡ ⟦<MemDisk as Disk>⟧.seen self.old }
        ensures stop { Within (⟦<MemDisk as Disk>⟧.images self.old) (⟦<MemDisk as Disk>⟧.images self.new) }
        ensures memory { IsErrOf result NoMemory → Stays (⟦<MemDisk as Disk>⟧.seen self.old) (⟦<MemDisk as Disk>⟧.seen self.new) (⟦<MemDisk as Disk>⟧.images self.old) (⟦<MemDisk as Disk>⟧.images self.new) (⟦<MemDisk as Disk>⟧.faults self.old) (⟦<MemDisk as Disk>⟧.faults self.new) }
        ensures cause { Counted (⟦<MemDisk as Disk>⟧.faults self.old) (⟦<MemDisk as Disk>⟧.faults self.new) (IsErrOf result Failed) }
        ensures marks { ⟦<MemDisk as Disk>⟧.marks self.new ≡ ⟦<MemDisk as Disk>⟧.marks self.old }
        ensures turn { Turns (⟦<MemDisk as Disk>⟧.calls_left self.old) (⟦<MemDisk as Disk>⟧.calls_left self.new) result }

        // It fails at an armed call alone.
        ensures kept { kept_by self.new ≡ after_call (kept_by self.old) }
        ensures refused { OnErr result ((result ≡ Err Failed) × (⟦<MemDisk as Disk>⟧.calls_left self.old ≡ Some 0)) }
        ensures faults { ⟦<MemDisk as Disk>⟧.faults self.new ≡ faults_after result (⟦<MemDisk as Disk>⟧.faults self.old) }
    {
        if !take_turn(&mut self.calls_left, &mut self.failed) {
            return Err(fault(&mut self.faults));
        }
        Ok(self.shown[area.number() as usize].len() as u64)
    }

    fn sync(&mut self) -> Result<(), DiskError>
        ensures durable { OnOk result (Only (⟦<MemDisk as Disk>⟧.seen self.old) (⟦<MemDisk as Disk>⟧.images self.new)) }
        ensures seen { ⟦<MemDisk as Disk>⟧.seen self.new ≡ ⟦<MemDisk as Disk>⟧.seen self.old }
        ensures stop { Within (⟦<MemDisk as Disk>⟧.images self.old) (⟦<MemDisk as Disk>⟧.images self.new) }
        ensures memory { IsErrOf result NoMemory → Stays (⟦<MemDisk as Disk>⟧.seen self.old) (⟦<MemDisk as Disk>⟧.seen self.new) (⟦<MemDisk as Disk>⟧.images self.old) (⟦<MemDisk as Disk>⟧.images self.new) (⟦<MemDisk as Disk>⟧.faults self.old) (⟦<MemDisk as Disk>⟧.faults self.new) }
        ensures cause { Counted (⟦<MemDisk as Disk>⟧.faults self.old) (⟦<MemDisk as Disk>⟧.faults self.new) (IsErrOf result Failed) }
        ensures marks { ⟦<MemDisk as Disk>⟧.marks self.new ≡ ⟦<MemDisk as Disk>⟧.marks self.old }
        ensures turn { Turns (⟦<MemDisk as Disk>⟧.calls_left self.old) (⟦<MemDisk as Disk>⟧.calls_left self.new) result }

        // It fails at an armed call alone.
        ensures kept { kept_by self.new ≡ after_sync (kept_by self.old) }
        ensures refused { OnErr result ((result ≡ Err Failed) × (⟦<MemDisk as Disk>⟧.calls_left self.old ≡ Some 0)) }
        ensures faults { ⟦<MemDisk as Disk>⟧.faults self.new ≡ faults_after result (⟦<MemDisk as Disk>⟧.faults self.old) }
    {
        if !take_turn(&mut self.calls_left, &mut self.failed) {
            return Err(fault(&mut self.faults));
        }
        settle(&mut self.synced, &self.pending);
        self.pending.clear();
        Ok(())
    }

    fn write_at(&mut self, area: Area, at: u64, bytes: &[u8]) -> Result<(), DiskError>
        requires { ForSome (⟦<MemDisk as Disk>⟧.seen self.old) (λ s. at ≤ length (s area)) }
        ensures room { OnOk result (at + length bytes.now < 2 ^ 63) }
        ensures written { OnOk result (⟦<MemDisk as Disk>⟧.seen self.new ≡ option_map (with_area area (written at bytes.now)) (⟦<MemDisk as Disk>⟧.seen self.old)) }
        ensures stop { Follows (Changes area (Torn at (length bytes.now))) (⟦<MemDisk as Disk>⟧.images self.old) (⟦<MemDisk as Disk>⟧.images self.new) }
        ensures memory { IsErrOf result NoMemory → Stays (⟦<MemDisk as Disk>⟧.seen self.old) (⟦<MemDisk as Disk>⟧.seen self.new) (⟦<MemDisk as Disk>⟧.images self.old) (⟦<MemDisk as Disk>⟧.images self.new) (⟦<MemDisk as Disk>⟧.faults self.old) (⟦<MemDisk as Disk>⟧.faults self.new) }
        ensures cause { Counted (⟦<MemDisk as Disk>⟧.faults self.old) (⟦<MemDisk as Disk>⟧.faults self.new) (IsErrOf result Failed) }
        ensures marks { ⟦<MemDisk as Disk>⟧.marks self.new ≡ ⟦<MemDisk as Disk>⟧.marks self.old }
        ensures turn { Turns (⟦<MemDisk as Disk>⟧.calls_left self.old) (⟦<MemDisk as Disk>⟧.calls_left self.new) result }

        // It fails at an armed call, and where the area would be too long.
        ensures kept { ¬ IsErrOf result NoMemory → kept_by self.new ≡ after_write (record { area = area; edit = Write at bytes.now }) (kept_by self.old) }
        ensures no_memory { IsErrOf result NoMemory → kept_by self.new ≡ kept_by self.old }
        ensures refused { IsErrOf result Failed → (⟦<MemDisk as Disk>⟧.calls_left self.old ≡ Some 0) ⊎ (2 ^ 63 ≤ at + length bytes.now) }
        ensures faults { ⟦<MemDisk as Disk>⟧.faults self.new ≡ faults_after result (⟦<MemDisk as Disk>⟧.faults self.old) }
    {
        if at.saturating_add(bytes.len() as u64) > MAX_LEN {
            let _ = take_turn(&mut self.calls_left, &mut self.failed);
            return Err(fault(&mut self.faults));
        }
        let bytes = copy_of(self.alloc, bytes)?;
        self.ask(Change {
            area,
            edit: Edit::Write { at, bytes },
        })
    }

    fn cut(&mut self, area: Area, len: u64) -> Result<(), DiskError>
        requires { ForSome (⟦<MemDisk as Disk>⟧.seen self.old) (λ s. len ≤ length (s area)) }
        ensures cut { OnOk result (⟦<MemDisk as Disk>⟧.seen self.new ≡ option_map (with_area area (take len)) (⟦<MemDisk as Disk>⟧.seen self.old)) }
        ensures stop { Follows (Changes area (Cut len)) (⟦<MemDisk as Disk>⟧.images self.old) (⟦<MemDisk as Disk>⟧.images self.new) }
        ensures memory { IsErrOf result NoMemory → Stays (⟦<MemDisk as Disk>⟧.seen self.old) (⟦<MemDisk as Disk>⟧.seen self.new) (⟦<MemDisk as Disk>⟧.images self.old) (⟦<MemDisk as Disk>⟧.images self.new) (⟦<MemDisk as Disk>⟧.faults self.old) (⟦<MemDisk as Disk>⟧.faults self.new) }
        ensures cause { Counted (⟦<MemDisk as Disk>⟧.faults self.old) (⟦<MemDisk as Disk>⟧.faults self.new) (IsErrOf result Failed) }
        ensures marks { ⟦<MemDisk as Disk>⟧.marks self.new ≡ ⟦<MemDisk as Disk>⟧.marks self.old }
        ensures turn { Turns (⟦<MemDisk as Disk>⟧.calls_left self.old) (⟦<MemDisk as Disk>⟧.calls_left self.new) result }

        // It fails at an armed call alone.
        ensures kept { ¬ IsErrOf result NoMemory → kept_by self.new ≡ after_change (record { area = area; edit = Shorten len }) (kept_by self.old) }
        ensures no_memory { IsErrOf result NoMemory → kept_by self.new ≡ kept_by self.old }
        ensures refused { IsErrOf result Failed → ⟦<MemDisk as Disk>⟧.calls_left self.old ≡ Some 0 }
        ensures faults { ⟦<MemDisk as Disk>⟧.faults self.new ≡ faults_after result (⟦<MemDisk as Disk>⟧.faults self.old) }
    {
        self.ask(Change {
            area,
            edit: Edit::Shorten { len },
        })
    }
}

impl CrashDisk for MemDisk {
    ghost use Rattle.disk_model.specs.KeptBy.{kept_by};

    ghost tells = { λ _. refl };

    fn arm(&mut self, calls: u64)
        requires { 1 ≤ calls }
        ensures stays { Stays (⟦<MemDisk as Disk>⟧.seen self.old) (⟦<MemDisk as Disk>⟧.seen self.new) (⟦<MemDisk as Disk>⟧.images self.old) (⟦<MemDisk as Disk>⟧.images self.new) (⟦<MemDisk as Disk>⟧.faults self.old) (⟦<MemDisk as Disk>⟧.faults self.new) }
        ensures nearer { ⟦<MemDisk as Disk>⟧.calls_left self.new ≡ Some (nearer calls (⟦<MemDisk as Disk>⟧.calls_left self.old)) }
        ensures marks { ⟦<MemDisk as Disk>⟧.marks self.new ≡ after_arm calls (⟦<MemDisk as Disk>⟧.marks self.old) }
        ensures kept { kept_by self.new ≡ after_arming calls (kept_by self.old) }
    {
        self.arms = self.arms.saturating_add(1);
        self.last = calls;
        self.calls_left = Some(match self.calls_left {
            None => calls - 1,
            Some(left) => left.min(calls - 1),
        });
    }

    // Which image it leaves is told by the changes since the last sync and the pick.
    fn crash(&mut self, pick: u64)
        ensures left { ForSome (⟦<MemDisk as Disk>⟧.seen self.new) (⟦<MemDisk as Disk>⟧.images self.old) }
        ensures only { Only (⟦<MemDisk as Disk>⟧.seen self.new) (⟦<MemDisk as Disk>⟧.images self.new) }
        ensures disarmed { ⟦<MemDisk as Disk>⟧.calls_left self.new ≡ None }
        ensures faults { ⟦<MemDisk as Disk>⟧.faults self.new ≡ ⟦<MemDisk as Disk>⟧.faults self.old }
        ensures marks { ⟦<MemDisk as Disk>⟧.marks self.new ≡ after_stop pick (⟦<MemDisk as Disk>⟧.marks self.old) }
        ensures kept { kept_by self.new ≡ after_crash pick (kept_by self.old) }
    {
        leave(&mut self.synced, &self.pending, pick);
        copy_all(&self.synced, &mut self.shown);
        self.pending.clear();
        self.calls_left = None;
        self.failed = false;
        self.stops = self.stops.saturating_add(1);
        self.last = pick;
    }
}
