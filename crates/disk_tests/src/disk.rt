use disk_model::{
    Area, CrashDisk, Disk, DiskError, LOG0, LOG1, MemDisk, SLOT0, SLOT1, cut_through, read_all,
    write_through,
};
use std::alloc::Global;
use std::process::Abort;
use std::test::Fail;

// A call of a disk. The first two write at the start of an area and after its bytes.
#[derive(Clone, Copy)]
enum Call {
    Write(Area, &'static [u8]),
    Append(Area, &'static [u8]),
    Empty(Area),
    Sync,
    WriteThrough(Area, &'static [u8]),
    EmptyThrough(Area),
}

// What is done with a disk, and what comes of it.
#[derive(Clone, Copy)]
enum Step {
    Does(Call),
    Fails(Call),
    // So many calls are done, and then none.
    Arm(u8),
    Crash(u64),
    Reads(Area, &'static [u8]),
}

fn ask(disk: &mut MemDisk, call: &Call) -> Result<(), DiskError> {
    match call {
        Call::Write(area, bytes) => disk.write_at(*area, 0, bytes),
        Call::Append(area, bytes) => append(disk, *area, bytes),
        Call::Empty(area) => disk.cut(*area, 0),
        Call::Sync => disk.sync(),
        Call::WriteThrough(area, bytes) => write_through(disk, *area, 0, bytes),
        Call::EmptyThrough(area) => cut_through(disk, *area, 0),
    }
}

fn append(disk: &mut MemDisk, area: Area, bytes: &[u8]) -> Result<(), DiskError> {
    let len = disk.len(area)?;
    disk.write_at(area, len, bytes)
}

fn take(rt: &impl Abort, alloc: Global, disk: &mut MemDisk, step: &Step) -> Result<(), DiskError> {
    match step {
        Step::Does(call) => assert_eq!(rt; ask(disk, call), Ok(())),
        Step::Fails(call) => assert_eq!(rt; ask(disk, call), Err(DiskError::Failed)),
        Step::Arm(done) => disk.arm(u64::from(*done) + 1),
        Step::Crash(pick) => disk.crash(*pick),
        Step::Reads(area, bytes) => {
            let read = read_all(alloc, disk, *area)?;
            assert_eq!(rt; read.as_slice(), *bytes);
        }
    }
    Ok(())
}

fn take_all(
    rt: &impl Abort,
    alloc: Global,
    disk: &mut MemDisk,
    steps: &[Step],
) -> Result<(), DiskError> {
    for step in steps {
        take(rt, alloc, disk, step)?;
    }
    Ok(())
}

// A new disk takes these steps, and then those.
fn play(rt: &impl Abort, alloc: Global, first: &[Step], then: &[Step]) -> Result<(), DiskError> {
    let mut disk = MemDisk::new(alloc);
    take_all(rt, alloc, &mut disk, first)?;
    take_all(rt, alloc, &mut disk, then)
}

const SYNCED: [Step; 5] = [
    Step::Does(Call::WriteThrough(SLOT0, &[1, 2, 3])),
    Step::Does(Call::EmptyThrough(SLOT0)),
    Step::Does(Call::WriteThrough(SLOT0, &[4, 5])),
    Step::Crash(0),
    Step::Reads(SLOT0, &[4, 5]),
];

// Three changes in two areas, a write in each and a cut.
const CHANGES: [Step; 4] = [
    Step::Does(Call::WriteThrough(LOG0, &[1, 2, 3])),
    Step::Does(Call::Write(LOG0, &[7, 8])),
    Step::Does(Call::Write(SLOT1, &[9])),
    Step::Does(Call::Empty(LOG0)),
];

// A pick, and what it leaves of both areas. The digits of the picks are, the least significant first, 0, 0, 0 and
// 1, 2, 0 and 2, 1, 0 and 1, 0, 2.
type Pick = (u64, &'static [u8], &'static [u8]);

const PICKS: [Pick; 4] = [
    (0, &[1, 2, 3], &[]),
    (7, &[7, 8, 3], &[165]),
    (5, &[165, 165, 3], &[9]),
    (19, &[], &[]),
];

// The first of two writes is lost.
const GAP: [Step; 4] = [
    Step::Does(Call::Write(LOG1, &[1, 2])),
    Step::Does(Call::Append(LOG1, &[3])),
    Step::Crash(3),
    Step::Reads(LOG1, &[165, 165, 3]),
];

// The call that failed first is among the pending changes, the later ones are not: the pick has the digits 0, 1, 1.
const ARMED: [Step; 8] = [
    Step::Arm(1),
    Step::Arm(4),
    Step::Does(Call::Write(LOG0, &[1])),
    Step::Fails(Call::Write(LOG0, &[2])),
    Step::Fails(Call::Write(LOG0, &[3])),
    Step::Fails(Call::Sync),
    Step::Crash(12),
    Step::Reads(LOG0, &[2]),
];

#[test]
fn a_synced_write_stays(rt: HostRuntime) -> Result<(), Fail> {
    play(&rt, rt.alloc(), &SYNCED, &[])?;
    Ok(())
}

#[test]
fn a_write_after_a_lost_one_fills_the_gap(rt: HostRuntime) -> Result<(), Fail> {
    play(&rt, rt.alloc(), &GAP, &[])?;
    Ok(())
}

#[test]
fn an_armed_call_fails_and_each_later_one(rt: HostRuntime) -> Result<(), Fail> {
    play(&rt, rt.alloc(), &ARMED, &[])?;
    Ok(())
}

// What is left of the three changes.
fn pick_each(rt: &impl Abort, alloc: Global, picks: &[Pick]) -> Result<(), DiskError> {
    for (pick, log, slot) in picks {
        let left = [
            Step::Crash(*pick),
            Step::Reads(LOG0, log),
            Step::Reads(SLOT1, slot),
        ];
        play(rt, alloc, &CHANGES, &left)?;
    }
    Ok(())
}

#[test]
fn each_change_has_its_digit(rt: HostRuntime) -> Result<(), Fail> {
    pick_each(&rt, rt.alloc(), &PICKS)?;
    Ok(())
}
