ghost use Rattle.std.specs.Prelude.{List, ℕ, ◌<◌, ◌≡◌};
ghost use Rattle.slot_store.specs.Slots.{HasPut};

use disk_model::{CrashDisk, Disk, MemDisk};
use gated_log::LogError;
use slot_store::{SlotError, SlotStore};
use std::alloc::Global;
use std::process::Abort;
use std::test::Fail;

// What is done with the slots, and what comes of it.
#[derive(Clone, Copy)]
enum Step {
    Begin(u8),
    Put(&'static [u8]),
    // A put that the disk fails, and one that nothing was begun for.
    PutFails(&'static [u8]),
    PutClosed,
    Finish,
    // The slot has these bytes from a place on.
    Has(u8, u8, &'static [u8]),
    // It ends before so many bytes from a place on, with this length.
    IsShort(u8, u8, u8, u8),
}

fn has<D: Disk>(
    alloc: Global,
    disk: &mut D,
    slot: u8,
    at: u8,
    bytes: &[u8],
) -> Result<bool, SlotError>
    requires { slot < 2 }
    ensures { D.seen disk.new ≡ D.seen disk.old }
{
    if bytes.len() > 100 {
        return Ok(false);
    }
    let read = SlotStore::read(alloc, disk, slot, u64::from(at), bytes.len() as u64)?;
    Ok(read.as_slice() == bytes)
}

fn ends_before<D: Disk>(alloc: Global, disk: &mut D, slot: u8, at: u8, len: u8, end: u8) -> bool
    requires { slot < 2 }
    ensures { D.seen disk.new ≡ D.seen disk.old }
{
    let read = SlotStore::read(alloc, disk, slot, u64::from(at), u64::from(len));
    matches!(read, Err(SlotError::Short { len: told }) if told == u64::from(end))
}

// A step, behind which nobody else has written what is being written.
fn take<D: Disk>(
    rt: &impl Abort,
    alloc: Global,
    store: &mut SlotStore,
    disk: &mut D,
    step: &Step,
) -> Result<(), SlotError>
    requires { (bytes : List ℕ) × HasPut store.old.writing (D.seen disk.old) bytes }
    ensures { (bytes : List ℕ) × HasPut store.new.writing (D.seen disk.new) bytes }
{
    match step {
        Step::Begin(slot) => assert_eq!(rt; store.begin(disk, *slot % 2), Ok(())),
        Step::Put(piece) => assert_eq!(rt; store.put(disk, piece), Ok(())),
        Step::PutFails(piece) => assert_eq!(rt; store.put(disk, piece), Err(LogError::Disk)),
        Step::PutClosed => assert_eq!(rt; store.put(disk, &[1]), Err(LogError::Closed)),
        Step::Finish => assert_eq!(rt; store.finish(disk), Ok(())),
        Step::Has(slot, at, bytes) => assert!(rt; has(alloc, disk, *slot % 2, *at, bytes)?),
        Step::IsShort(slot, at, len, end) => {
            assert!(rt; ends_before(alloc, disk, *slot % 2, *at, *len, *end));
        }
    }
    Ok(())
}

fn take_all<D: Disk>(
    rt: &impl Abort,
    alloc: Global,
    store: &mut SlotStore,
    disk: &mut D,
    steps: &[Step],
) -> Result<(), SlotError>
    requires { (bytes : List ℕ) × HasPut store.old.writing (D.seen disk.old) bytes }
    ensures { (bytes : List ℕ) × HasPut store.new.writing (D.seen disk.new) bytes }
{
    for step in steps {
        take(rt, alloc, store, disk, step)?;
    }
    Ok(())
}

// A new disk takes these steps.
fn play(rt: &impl Abort, alloc: Global, steps: &[Step]) -> Result<(), SlotError> {
    let mut disk = MemDisk::new(alloc);
    let mut store = SlotStore::new();
    take_all(rt, alloc, &mut store, &mut disk, steps)
}

const TWO_PIECES: [Step; 14] = [
    Step::PutClosed,
    Step::Begin(0),
    Step::Put(&[1, 2]),
    Step::Put(&[3]),
    Step::Finish,
    Step::PutClosed,
    Step::Has(0, 0, &[1, 2, 3]),
    Step::Has(0, 1, &[2]),
    Step::Has(0, 3, &[]),
    Step::IsShort(0, 1, 3, 3),
    Step::IsShort(0, 4, 0, 3),
    Step::IsShort(1, 0, 1, 0),
    Step::Begin(0),
    Step::Has(0, 0, &[]),
];

#[test]
fn a_slot_has_the_pieces_that_were_put(rt: HostRuntime) -> Result<(), Fail> {
    play(&rt, rt.alloc(), &TWO_PIECES)?;
    Ok(())
}

// Slot 0 is whole, and the disk fails in a put to slot 1; the stop behind it is picked so.
fn expect_stopped(rt: &impl Abort, alloc: Global, pick: u8, len: u8) -> Result<(), SlotError> {
    let mut disk = MemDisk::new(alloc);
    let mut store = SlotStore::new();
    take_all(rt, alloc, &mut store, &mut disk, &WHOLE)?;
    disk.arm(1);
    take(rt, alloc, &mut store, &mut disk, &Step::PutFails(&[8]))?;
    take(rt, alloc, &mut store, &mut disk, &Step::PutClosed)?;
    disk.crash(u64::from(pick));
    assert!(rt; has(alloc, &mut disk, 0, 0, &[1, 2, 3])?);
    assert!(rt; ends_before(alloc, &mut disk, 1, 0, 9, len));
    Ok(())
}

const WHOLE: [Step; 6] = [
    Step::Begin(0),
    Step::Put(&[1, 2, 3]),
    Step::Finish,
    Step::Begin(1),
    Step::Put(&[7]),
    Step::Has(1, 0, &[7]),
];

// The cut of slot 1, its first piece and its second are what the pick has digits for.
#[test]
fn a_stop_within_a_put_leaves_the_other_slot(rt: HostRuntime) -> Result<(), Fail> {
    expect_stopped(&rt, rt.alloc(), 0, 0)?;
    expect_stopped(&rt, rt.alloc(), 3, 1)?;
    expect_stopped(&rt, rt.alloc(), 12, 2)?;
    expect_stopped(&rt, rt.alloc(), 9, 2)?;
    Ok(())
}
