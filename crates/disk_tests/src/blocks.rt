ghost use Rattle.std.specs.Prelude.{◌≡◌, false, IfOk};
ghost use Rattle.gated_log.specs.Log.{IsSettled};

use disk_model::{Area, CrashDisk, Disk, DiskError, LOG0, LOG1, MemDisk, read_all, write_through};
use gated_log::{Block, Blocks, GatedLog, LogError};
use rc_base::Bytes;
use std::alloc::Global;
use std::process::Abort;
use std::test::Fail;

// A block: its place and its payload.
type Row = (u64, &'static [u8]);

// What is done with the first log area, and what comes of it.
#[derive(Clone, Copy)]
enum Step {
    // The area gets these bytes.
    Write(&'static [u8]),
    Append(&'static [u8]),
    Blocks(&'static [Row]),
    Bytes(&'static [u8]),
}

fn append(alloc: Global, disk: &mut MemDisk, payload: &[u8]) -> Result<(), LogError> {
    let (mut log, _blocks) = GatedLog::mount(alloc, disk, LOG0)?;
    if !payload.is_empty() && payload.len() <= 1_048_576 {
        log.append(disk, payload)?;
    }
    Ok(())
}

fn has_rows(blocks: &[Block], rows: &[Row]) -> bool {
    if blocks.len() != rows.len() {
        return false;
    }
    let mut same = true;
    for i in 0..rows.len() {
        let block = &blocks[i];
        let (place, payload) = rows[i];
        same &= block.place == place && block.payload.as_slice() == payload;
    }
    same
}

fn has_blocks(alloc: Global, disk: &mut MemDisk, rows: &[Row]) -> Result<bool, LogError> {
    let (_log, blocks) = GatedLog::mount(alloc, disk, LOG0)?;
    Ok(has_rows(blocks.as_slice(), rows))
}

fn has_bytes(
    alloc: Global,
    disk: &mut MemDisk,
    area: Area,
    bytes: &[u8],
) -> Result<bool, DiskError> {
    let read = read_all(alloc, disk, area)?;
    Ok(read.as_slice() == bytes)
}

fn take(rt: &impl Abort, alloc: Global, disk: &mut MemDisk, step: &Step) -> Result<(), LogError> {
    match step {
        Step::Write(bytes) => write_through(disk, LOG0, 0, bytes)?,
        Step::Append(payload) => append(alloc, disk, payload)?,
        Step::Blocks(rows) => assert!(rt; has_blocks(alloc, disk, rows)?),
        Step::Bytes(bytes) => assert!(rt; has_bytes(alloc, disk, LOG0, bytes)?),
    }
    Ok(())
}

// A new disk takes these steps.
fn play(rt: &impl Abort, alloc: Global, steps: &[Step]) -> Result<(), LogError> {
    let mut disk = MemDisk::new(alloc);
    for step in steps {
        take(rt, alloc, &mut disk, step)?;
    }
    Ok(())
}

const ONE_BLOCK: [Step; 4] = [
    Step::Blocks(&[]),
    Step::Append(&[2, 0, 0, 0, 0, 0, 0, 0, 2]),
    Step::Bytes(&[1, 0, 0, 0, 9, 2, 0, 0, 0, 0, 0, 0, 0, 2, 0]),
    Step::Blocks(&[(0, &[2, 0, 0, 0, 0, 0, 0, 0, 2])]),
];

#[test]
fn a_block_is_spelled_and_read(rt: HostRuntime) -> Result<(), Fail> {
    play(&rt, rt.alloc(), &ONE_BLOCK)?;
    Ok(())
}

const CUT_SHORT: [Step; 3] = [
    Step::Write(&[1, 0, 0, 0, 200, 5]),
    Step::Blocks(&[]),
    Step::Bytes(&[0]),
];

#[test]
fn a_block_that_is_cut_short_is_dropped(rt: HostRuntime) -> Result<(), Fail> {
    play(&rt, rt.alloc(), &CUT_SHORT)?;
    Ok(())
}

// An append is stopped at one of its device calls, counted from 0. Its error, and what the next append answers.
fn append_stopped(
    alloc: Global,
    disk: &mut MemDisk,
    call: u8,
) -> Result<Option<(LogError, Result<(), LogError>)>, LogError> {
    let (mut log, _blocks) = GatedLog::mount(alloc, disk, LOG0)?;
    disk.arm(u64::from(call) + 1);
    match log.append(disk, &[6, 7]) {
        Ok(()) => Ok(None),
        Err(e) => Ok(Some((e, log.append(disk, &[8])))),
    }
}

// The second of two appends is stopped, and this is left.
fn expect_stopped(
    rt: &impl Abort,
    alloc: Global,
    call: u8,
    pick: u8,
    rows: &[Row],
) -> Result<(), LogError> {
    let mut disk = MemDisk::new(alloc);
    append(alloc, &mut disk, &[5])?;
    let told = append_stopped(alloc, &mut disk, call)?;
    assert!(rt; matches!(&told, Some((LogError::Disk, Err(LogError::Closed)))));
    disk.crash(u64::from(pick));
    assert!(rt; has_blocks(alloc, &mut disk, rows)?);
    Ok(())
}

const BOTH: [Row; 2] = [(0, &[5]), (6, &[6, 7])];

// The body and its sync are calls 0 and 1, the gate and its sync are calls 2 and 3.
fn expect_all_stopped(rt: &impl Abort, alloc: Global) -> Result<(), LogError> {
    for call in 0..4u8 {
        for pick in 0..3u8 {
            let kept = if call >= 2 && pick == 1 { 2 } else { 1 };
            expect_stopped(rt, alloc, call, pick, &BOTH[..kept])?;
        }
    }
    Ok(())
}

#[test]
fn a_stopped_append_leaves_the_old_blocks_or_the_new_one_too(rt: HostRuntime) -> Result<(), Fail> {
    expect_all_stopped(&rt, rt.alloc())?;
    Ok(())
}

fn begin_fresh(alloc: Global, disk: &mut MemDisk) -> Result<GatedLog, LogError>
    ensures log { IfOk result (λ log. log.closed ≡ false) }
    ensures settled { IfOk result (λ log. IsSettled (⟦<MemDisk as Disk>⟧.images disk.new) log) }
{
    let first = Bytes::from_slice(alloc, &[5])?;
    let payloads = [first, Bytes::from_slice(alloc, &[6, 7])?];
    GatedLog::fresh(alloc, disk, LOG1, &payloads)
}

fn append_to_fresh(alloc: Global, disk: &mut MemDisk) -> Result<(), LogError> {
    let mut log = begin_fresh(alloc, disk)?;
    log.append(disk, &[8])
}

#[test]
fn a_fresh_area_has_its_blocks(rt: HostRuntime) -> Result<(), Fail> {
    let mut disk = MemDisk::new(rt.alloc());
    append_to_fresh(rt.alloc(), &mut disk)?;
    let bytes: &[u8] = &[1, 0, 0, 0, 1, 5, 1, 0, 0, 0, 2, 6, 7, 1, 0, 0, 0, 1, 8, 0];
    assert!(rt; has_bytes(rt.alloc(), &mut disk, LOG1, bytes)?);
    Ok(())
}
