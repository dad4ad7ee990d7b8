// Logs over an area of a disk.
ghost use Rattle.std.specs.Prelude.{◌≡◌, ◌≢◌, ◌⊎◌, ◌↔◌, ◌+◌, ◌^◌, ◌<◌, ◌≤◌, [], ◌∷◌, ◌++◌, true, false, List, ℕ, length, take, slice_index, is_err, Err, OnOk, IfOk, IsErrOf};
ghost use Rattle.rc_base.specs.Counts.{Counted};
ghost use Rattle.disk_model.specs.Disk.{Cut, Changes, Follows, Within, Only, Each};
ghost use Rattle.disk_model.specs.declared.disk.DiskError.TheVariants.{Failed, NoMemory};
ghost use Rattle.gated_log.specs.Blocks.{IsPayload, AllPayloads, IsAtRest, Keeps, Gains, KeepsOrGains, KeepsPrefix, HasThese, HasNoneOrThese, open_blocks, behind_gate, spelling};
ghost use Rattle.gated_log.specs.Log.{IsSettled, StaysElsewhere, placed_from};

use crate::block::{body_of, spell_all, walk};
use crate::{Blocks, LogError};
use disk_model::{Area, Disk, DiskError, cut_through, read_all, write_through};
use rc_base::Bytes;
use std::alloc::Global;
use std::marker::Model;

/// A log over one area of a disk. It keeps no block in memory.
#[derive(Drop)]
pub struct GatedLog {
    alloc: Global,
    area: Area,
    end: u64,
    closed: bool,
}

impl Model for GatedLog {
    ghost use Rattle.std.specs.Prelude.{◌^◌, ◌<◌};
    ghost use Rattle.gated_log.specs.Log.{Log};

    ghost Value = { Log };

    ghost view = { λ l. record { area = l.area; end = l.end; closed = l.closed } };

    ghost invariant = { λ l. l.end < 2 ^ 63 };
}

impl GatedLog {
    /// Adds a block of 1 to 1,048,576 bytes at the end. At `Ok` each stop from then on leaves it.
    ///
    /// It makes four calls of the disk: the body and a sync, the gate and a sync.
    ///
    /// # Errors
    /// `Closed` exactly where an earlier call on this log failed; `Disk` where the disk failed, `NoMemory` for want of
    /// memory. After an error the disk has the blocks from before, or those and this one, and the log is closed.
    pub fn append<D: Disk>(&mut self, disk: &mut D, payload: &[u8]) -> Result<(), LogError>
        requires payload { IsPayload payload.now }

        // Log and disk stand as `mount`, `fresh` or `append` left them.
        requires settled { self.old.closed ≡ false → IsSettled (D.images disk.old) self.old }

        ensures stop { Follows (Changes self.old.area (KeepsOrGains payload.now)) (D.images disk.old) (D.images disk.new) }
        ensures gains { OnOk result (Follows (Changes self.old.area (Gains payload.now)) (D.images disk.old) (D.images disk.new)) }
        ensures settled { OnOk result (IsSettled (D.images disk.new) self.new) }
        ensures durable { OnOk result (Only (D.seen disk.new) (D.images disk.new)) }
        ensures elsewhere { OnOk result (StaysElsewhere self.old.area (D.seen disk.old) (D.seen disk.new)) }
        ensures end { OnOk result (self.new.end ≡ self.old.end + 5 + length payload.now) }
        ensures area { self.new.area ≡ self.old.area }
        ensures closed { self.new.closed ≡ is_err result }
        ensures closed_before { IsErrOf result LogError.Closed ↔ (self.old.closed ≡ true) }

        // A closed log makes no call of the disk.
        ensures untouched { self.old.closed ≡ true → disk.new ≡ disk.old }
        ensures cause { Counted (D.faults disk.old) (D.faults disk.new) (IsErrOf result LogError.Disk) }
        ensures marks { D.marks disk.new ≡ D.marks disk.old }
    {
        if self.closed {
            return Err(LogError::Closed);
        }
        self.closed = true;
        append_at(self.alloc, disk, self.area, self.end, payload)?;
        self.end += 5 + payload.len() as u64;
        self.closed = false;
        Ok(())
    }
}

// Adds a block behind the closed gate at the end.
fn append_at<D: Disk>(
    alloc: Global,
    disk: &mut D,
    area: Area,
    end: u64,
    payload: &[u8],
) -> Result<(), DiskError>
    requires below { end < 2 ^ 63 }
    requires payload { IsPayload payload.now }
    requires settled { Each (D.images disk.old) (λ c. IsAtRest (c area) end) }
    ensures stop { Follows (Changes area (KeepsOrGains payload.now)) (D.images disk.old) (D.images disk.new) }
    ensures gains { OnOk result (Follows (Changes area (Gains payload.now)) (D.images disk.old) (D.images disk.new)) }
    ensures settled { OnOk result (Each (D.images disk.new) (λ c. IsAtRest (c area) (end + 5 + length payload.now))) }
    ensures durable { OnOk result (Only (D.seen disk.new) (D.images disk.new)) }
    ensures elsewhere { OnOk result (StaysElsewhere area (D.seen disk.old) (D.seen disk.new)) }
    ensures room { OnOk result (end + 5 + length payload.now < 2 ^ 63) }
    ensures cause { Counted (D.faults disk.old) (D.faults disk.new) (IsErrOf result Failed) }
    ensures marks { D.marks disk.new ≡ D.marks disk.old }
{
    let body = body_for(alloc, payload)?;
    write_through(disk, area, end + 1, &body)?;
    write_through(disk, area, end, &[1])?;
    Ok(())
}

fn body_for(alloc: Global, payload: &[u8]) -> Result<Vec<u8>, DiskError>
    requires { IsPayload payload.now }
    ensures body { IfOk result (λ v. v.items ≡ behind_gate payload.now) }
    ensures err { IsErrOf result Failed → ⊥ }
{
    body_of(alloc, payload).map_err(|_| DiskError::NoMemory)
}

impl GatedLog {
    /// Opens the log of an area: its open blocks and their places, after its end was repaired.
    ///
    /// # Errors
    /// `Disk` where the disk failed, `NoMemory` for want of memory. The blocks are as they were then.
    pub fn mount<D: Disk>(
        alloc: Global,
        disk: &mut D,
        area: Area,
    ) -> Result<(GatedLog, Blocks), LogError>
        ensures stop { Follows (Changes area Keeps) (D.images disk.old) (D.images disk.new) }
        ensures blocks { IfOk result (λ r. Each (D.images disk.new) (λ c. r.1 ≡ placed_from 0 (open_blocks (c area)))) }
        ensures settled { IfOk result (λ r. IsSettled (D.images disk.new) r.0) }
        ensures log { IfOk result (λ r. (r.0.area ≡ area) × (r.0.closed ≡ false)) }
        ensures durable { OnOk result (Only (D.seen disk.new) (D.images disk.new)) }
        ensures elsewhere { OnOk result (StaysElsewhere area (D.seen disk.old) (D.seen disk.new)) }
        ensures not_closed { IsErrOf result LogError.Closed → ⊥ }
        ensures cause { Counted (D.faults disk.old) (D.faults disk.new) (IsErrOf result LogError.Disk) }
        ensures marks { D.marks disk.new ≡ D.marks disk.old }
    {
        let (blocks, end) = open_area(alloc, disk, area)?;
        Ok((
            GatedLog {
                alloc,
                area,
                end,
                closed: false,
            },
            blocks,
        ))
    }

    /// Makes a log of exactly these blocks of an area. A stop before its last write leaves a prefix of the blocks that
    /// were open there, or none; one at that write or behind it leaves none or exactly these.
    ///
    /// # Errors
    /// `Disk` where the disk failed, `NoMemory` for want of memory.
    pub fn fresh<D: Disk>(
        alloc: Global,
        disk: &mut D,
        area: Area,
        payloads: &[Bytes],
    ) -> Result<GatedLog, LogError>
        requires some { 1 ≤ length payloads.now }
        requires payloads { AllPayloads payloads.now }

        // At each exit one of the two holds of all images.
        ensures stop { Follows (Changes area KeepsPrefix) (D.images disk.old) (D.images disk.new)
            ⊎ Follows (Changes area (HasNoneOrThese payloads.now)) (D.images disk.old) (D.images disk.new) }

        ensures these { OnOk result (Follows (Changes area (HasThese payloads.now)) (D.images disk.old) (D.images disk.new)) }
        ensures settled { IfOk result (λ log. IsSettled (D.images disk.new) log) }
        ensures log { IfOk result (λ log. (log.area ≡ area) × (log.closed ≡ false)) }
        ensures durable { OnOk result (Only (D.seen disk.new) (D.images disk.new)) }
        ensures elsewhere { OnOk result (StaysElsewhere area (D.seen disk.old) (D.seen disk.new)) }
        ensures not_closed { IsErrOf result LogError.Closed → ⊥ }
        ensures cause { Counted (D.faults disk.old) (D.faults disk.new) (IsErrOf result LogError.Disk) }
        ensures marks { D.marks disk.new ≡ D.marks disk.old }
    {
        let end = fresh_area(alloc, disk, area, payloads)?;
        Ok(GatedLog {
            alloc,
            area,
            end,
            closed: false,
        })
    }
}

// The open blocks of an area and the place behind them, after its end was repaired.
fn open_area<D: Disk>(alloc: Global, disk: &mut D, area: Area) -> Result<(Blocks, u64), DiskError>
    ensures stop { Follows (Changes area Keeps) (D.images disk.old) (D.images disk.new) }
    ensures blocks { IfOk result (λ r. Each (D.images disk.new) (λ c. r.0 ≡ placed_from 0 (open_blocks (c area)))) }
    ensures settled { IfOk result (λ r. Each (D.images disk.new) (λ c. IsAtRest (c area) r.1)) }
    ensures below { IfOk result (λ r. r.1 < 2 ^ 63) }
    ensures durable { OnOk result (Only (D.seen disk.new) (D.images disk.new)) }
    ensures elsewhere { OnOk result (StaysElsewhere area (D.seen disk.old) (D.seen disk.new)) }
    ensures cause { Counted (D.faults disk.old) (D.faults disk.new) (IsErrOf result Failed) }
    ensures marks { D.marks disk.new ≡ D.marks disk.old }
{
    disk.sync()?;
    let bytes = read_all(alloc, disk, area)?;
    let content = bytes.as_slice();
    let (blocks, end) = blocks_of(alloc, content)?;
    repair(disk, area, content, end)?;
    Ok((blocks, end))
}

fn blocks_of(alloc: Global, bytes: &[u8]) -> Result<(Blocks, u64), DiskError>
    requires { length bytes.now < 2 ^ 63 }
    ensures blocks { IfOk result (λ r. r.0 ≡ placed_from 0 (open_blocks bytes.now)) }
    ensures end { IfOk result (λ r. r.1 ≡ length (spelling (open_blocks bytes.now))) }
    ensures within { IfOk result (λ r. r.1 ≤ length bytes.now) }
    ensures err { IsErrOf result Failed → ⊥ }
{
    walk(alloc, bytes).map_err(|_| DiskError::NoMemory)
}

// Leaves exactly one closed gate behind the open blocks. The gate stays in the area throughout.
fn repair<D: Disk>(disk: &mut D, area: Area, bytes: &[u8], end: u64) -> Result<(), DiskError>
    requires same { Each (D.images disk.old) (λ c. c area ≡ bytes.now) }
    requires durable { Only (D.seen disk.old) (D.images disk.old) }
    requires place { end ≡ length (spelling (open_blocks bytes.now)) }
    requires within { end ≤ length bytes.now }
    requires fits { length bytes.now < 2 ^ 63 }
    ensures stop { Follows (Changes area Keeps) (D.images disk.old) (D.images disk.new) }
    ensures blocks { OnOk result (Each (D.images disk.new) (λ c. open_blocks (c area) ≡ open_blocks bytes.now)) }
    ensures settled { OnOk result (Each (D.images disk.new) (λ c. IsAtRest (c area) end)) }
    ensures durable { OnOk result (Only (D.seen disk.new) (D.images disk.new)) }
    ensures elsewhere { OnOk result (StaysElsewhere area (D.seen disk.old) (D.seen disk.new)) }
    ensures cause { Counted (D.faults disk.old) (D.faults disk.new) (IsErrOf result Failed) }
    ensures marks { D.marks disk.new ≡ D.marks disk.old }
{
    if is_at_rest(bytes, end as usize) {
        return Ok(());
    }
    cut_behind(disk, area, bytes.len() as u64, end + 1)?;
    write_through(disk, area, end, &[0])?;
    Ok(())
}

// Whether exactly one closed gate stands behind the place.
fn is_at_rest(bytes: &[u8], end: usize) -> bool
    requires { (end ≤ length bytes.now) × (length bytes.now < 2 ^ 63) }
    ensures { result ≡ true → (length bytes.now ≡ end + 1) × (slice_index bytes.now end ≢ 1) }
{
    bytes.len() == end + 1 && bytes[end] != 1
}

// Cuts an area of this length where it is longer than is to be kept.
fn cut_behind<D: Disk>(disk: &mut D, area: Area, len: u64, keep: u64) -> Result<(), DiskError>
    requires same { Each (D.images disk.old) (λ c. length (c area) ≡ len) }
    requires durable { Only (D.seen disk.old) (D.images disk.old) }
    ensures stop { Follows (Changes area (Cut keep)) (D.images disk.old) (D.images disk.new) }
    ensures ok { OnOk result (Follows (Changes area (λ x y. y ≡ take keep x)) (D.images disk.old) (D.images disk.new)) }
    ensures durable { OnOk result (Only (D.seen disk.new) (D.images disk.new)) }
    ensures elsewhere { OnOk result (StaysElsewhere area (D.seen disk.old) (D.seen disk.new)) }
    ensures cause { Counted (D.faults disk.old) (D.faults disk.new) (IsErrOf result Failed) }
    ensures marks { D.marks disk.new ≡ D.marks disk.old }
{
    if len <= keep {
        return Ok(());
    }
    cut_through(disk, area, keep)
}

// Makes an area exactly open blocks of these payloads and a closed gate, and answers the place of that gate.
fn fresh_area<D: Disk>(
    alloc: Global,
    disk: &mut D,
    area: Area,
    payloads: &[Bytes],
) -> Result<u64, DiskError>
    requires some { 1 ≤ length payloads.now }
    requires payloads { AllPayloads payloads.now }
    ensures stop { Follows (Changes area KeepsPrefix) (D.images disk.old) (D.images disk.new)
        ⊎ Follows (Changes area (HasNoneOrThese payloads.now)) (D.images disk.old) (D.images disk.new) }
    ensures these { OnOk result (Follows (Changes area (HasThese payloads.now)) (D.images disk.old) (D.images disk.new)) }
    ensures settled { IfOk result (λ end. Each (D.images disk.new) (λ c. IsAtRest (c area) end)) }
    ensures below { IfOk result (λ end. end < 2 ^ 63) }
    ensures durable { OnOk result (Only (D.seen disk.new) (D.images disk.new)) }
    ensures elsewhere { OnOk result (StaysElsewhere area (D.seen disk.old) (D.seen disk.new)) }
    ensures cause { Counted (D.faults disk.old) (D.faults disk.new) (IsErrOf result Failed) }
    ensures marks { D.marks disk.new ≡ D.marks disk.old }
{
    let whole = bytes_for(alloc, payloads)?;
    let end = whole.len() as u64 - 1;
    replace(disk, area, &whole)?;
    Ok(end)
}

fn bytes_for(alloc: Global, payloads: &[Bytes]) -> Result<Vec<u8>, DiskError>
    requires { AllPayloads payloads.now }
    ensures bytes { IfOk result (λ v. v.items ≡ spelling payloads.now ++ 0 ∷ []) }
    ensures some { IfOk result (λ v. 1 ≤ length v.items) }
    ensures err { IsErrOf result Failed → ⊥ }
{
    spell_all(alloc, payloads).map_err(|_| DiskError::NoMemory)
}

// Puts bytes that begin with an open gate in the place of an area. Until the last write its first gate is closed.
fn replace<D: Disk>(disk: &mut D, area: Area, whole: &[u8]) -> Result<(), DiskError>
    requires first { take 1 whole.now ≡ 1 ∷ [] }
    requires some { 1 ≤ length whole.now }
    ensures stop { Follows (Changes area KeepsPrefix) (D.images disk.old) (D.images disk.new)
        ⊎ Follows (Changes area (HasNoneOrThese (open_blocks whole.now))) (D.images disk.old) (D.images disk.new) }
    ensures done { OnOk result (Follows (Changes area (λ x y. y ≡ whole.now)) (D.images disk.old) (D.images disk.new)) }
    ensures durable { OnOk result (Only (D.seen disk.new) (D.images disk.new)) }
    ensures elsewhere { OnOk result (StaysElsewhere area (D.seen disk.old) (D.seen disk.new)) }
    ensures cause { Counted (D.faults disk.old) (D.faults disk.new) (IsErrOf result Failed) }
    ensures marks { D.marks disk.new ≡ D.marks disk.old }
{
    let rest = &whole[1..];
    cut_through(disk, area, 0)?;
    write_through(disk, area, 0, &[0])?;
    write_through(disk, area, 1, rest)?;
    write_through(disk, area, 0, &[1])?;
    Ok(())
}
