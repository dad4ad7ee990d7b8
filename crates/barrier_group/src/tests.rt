use super::*;
use disk_model::{CrashDisk, Disk, LOG0, MemDisk};
use gated_log::{GatedLog, LogError};
use log_records::{Physical, Record, physical_fits};
use rc_base::{Epoch, Lsn, NoMemory};
use std::alloc::Global;
use std::process::Abort;
use std::test::*;

// The spelling of a fence, and after it that of a barrier.
const TWO: [u8; 35] = [
    2, 0, 0, 0, 0, 0, 0, 0, 2, 1, 0, 0, 0, 0, 0, 0, 0, 7, 0, 0, 0, 0, 0, 0, 0, 1, 19, 0, 0, 0, 0,
    0, 0, 0, 6,
];

fn fence() -> Physical {
    Physical::Fence {
        epoch: Epoch { loss: 0, number: 2 },
    }
}

fn barrier() -> Physical {
    Physical::Logical {
        lsn: Lsn(7),
        epoch: Epoch { loss: 0, number: 1 },
        body: Record::Barrier { stable: Lsn(6) },
    }
}

fn push(group: &mut Group, item: Physical) -> Result<(), NoMemory> {
    if physical_fits(&item) {
        group.push(item)?;
    }
    Ok(())
}

// A group of a fence and a barrier.
fn two(alloc: Global) -> Result<Group, NoMemory> {
    let mut group = Group::new(alloc);
    push(&mut group, fence())?;
    push(&mut group, barrier())?;
    Ok(group)
}

// Whether the group has these two again.
fn has_two(group: &Group) -> bool {
    match group.as_slice() {
        [first, second] => *first == fence() && *second == barrier(),
        _ => false,
    }
}

fn flush(alloc: Global, disk: &mut MemDisk, group: &mut Group) -> Result<(), LogError> {
    let (mut log, _blocks) = GatedLog::mount(alloc, disk, LOG0)?;
    if group.payload_len() <= 1_048_576 {
        group.flush(&mut log, disk)?;
    }
    Ok(())
}

fn flush_two(rt: &impl Abort, alloc: Global, disk: &mut MemDisk) -> Result<(), LogError> {
    let mut group = two(alloc)?;
    assert!(rt; has_two(&group) && group.payload_len() == 35);
    flush(alloc, disk, &mut group)?;
    assert!(rt; group.is_empty() && group.payload_len() == 0);
    Ok(())
}

// How many blocks the log has, and whether each has the payload of a fence and a barrier.
fn count_blocks(alloc: Global, disk: &mut MemDisk) -> Result<(usize, bool), LogError> {
    let (_log, blocks) = GatedLog::mount(alloc, disk, LOG0)?;
    let mut same = true;
    for block in blocks.as_slice() {
        same &= block.payload.as_slice() == TWO.as_slice();
    }
    Ok((blocks.as_slice().len(), same))
}

#[test]
fn a_group_is_one_block(rt: HostRuntime) -> Result<(), Fail> {
    let mut disk = MemDisk::new(rt.alloc());
    flush_two(&rt, rt.alloc(), &mut disk)?;
    assert_eq!(rt; count_blocks(rt.alloc(), &mut disk)?, (1, true));
    Ok(())
}

// A group with no record is flushed to a log whose disk fails at its next call.
fn flush_none(alloc: Global, disk: &mut MemDisk) -> Result<(), LogError> {
    let (mut log, _blocks) = GatedLog::mount(alloc, disk, LOG0)?;
    disk.arm(1);
    Group::new(alloc).flush(&mut log, disk)
}

#[test]
fn an_empty_group_makes_no_call(rt: HostRuntime) -> Result<(), Fail> {
    let mut disk = MemDisk::new(rt.alloc());
    flush_none(rt.alloc(), &mut disk)?;
    assert_eq!(rt; disk.len(LOG0).is_err(), true);
    Ok(())
}

// What flushes answer of which the first is stopped at one of its device calls, counted from 0: that one, the next,
// and one of a group with no record.
type Answers = [Result<(), LogError>; 3];

fn flush_stopped(
    alloc: Global,
    disk: &mut MemDisk,
    group: &mut Group,
    call: u8,
) -> Result<Answers, LogError> {
    let (mut log, _blocks) = GatedLog::mount(alloc, disk, LOG0)?;
    if group.payload_len() != 35 {
        return Ok([Ok(()); 3]);
    }
    disk.arm(u64::from(call) + 1);
    match group.flush(&mut log, disk) {
        Ok(()) => Ok([Ok(()); 3]),
        Err(e) => {
            let again = group.flush(&mut log, disk);
            Ok([Err(e), again, Group::new(alloc).flush(&mut log, disk)])
        }
    }
}

// A flush that is stopped leaves the group as before.
fn stop_two(rt: &impl Abort, alloc: Global, disk: &mut MemDisk, call: u8) -> Result<(), LogError> {
    let mut group = two(alloc)?;
    let answers = flush_stopped(alloc, disk, &mut group, call)?;
    assert!(rt; answers == [Err(LogError::Disk), Err(LogError::Closed), Ok(())]);
    assert!(rt; has_two(&group) && group.payload_len() == 35);
    Ok(())
}

// It leaves this many blocks.
fn expect_stopped(
    rt: &impl Abort,
    alloc: Global,
    call: u8,
    pick: u8,
    kept: usize,
) -> Result<(), LogError> {
    let mut disk = MemDisk::new(alloc);
    stop_two(rt, alloc, &mut disk, call)?;
    disk.crash(u64::from(pick));
    assert_eq!(rt; count_blocks(alloc, &mut disk)?, (kept, true));
    Ok(())
}

fn expect_all_stopped(rt: &impl Abort, alloc: Global) -> Result<(), LogError> {
    for call in 0..4u8 {
        for pick in 0..3u8 {
            let kept = if call >= 2 && pick == 1 { 1 } else { 0 };
            expect_stopped(rt, alloc, call, pick, kept)?;
        }
    }
    Ok(())
}

#[test]
fn a_stopped_flush_leaves_all_or_nothing(rt: HostRuntime) -> Result<(), Fail> {
    expect_all_stopped(&rt, rt.alloc())?;
    Ok(())
}
