ghost use Rattle.std.specs.Prelude.{◌≡◌, ◌≤◌, IfOk};
ghost use Rattle.log_tests.specs.Examples.{first_items};

use barrier_group::Group;
use coll_model::Op;
use disk_model::{Area, CrashDisk, LOG0, LOG1, MemDisk, read_all};
use gated_log::{GatedLog, LogError};
use log_records::{Physical, Record, physical_fits};
use log_store::{Durable, LogStore, RecoverError};
use rc_base::{Epoch, Lsn, Name, NoMemory, TxnId};
use std::alloc::Global;
use std::process::Abort;
use std::test::*;

// The length of a block with a head alone: the gate, the length, and 26 bytes of the head.
const HEAD_BLOCK: u64 = 31;

// A physical record. Logical ones have their position and the number of their epoch first.
#[derive(Clone, Copy)]
enum Item {
    // A head of this generation.
    Head(u64),
    Fence(u32),
    // It names this epoch.
    EpochStart(u64, u32, u32),
    // Its transaction is of this epoch.
    Begin(u64, u32, u32),
    // This position is stable.
    Barrier(u64, u32, u64),
    // At position 3, of the transaction of a Begin, it names this position before it.
    Operation(u64),
    TruncateTail,
    CheckpointDone,
    Reset,
}

fn epoch(number: u32) -> Epoch {
    Epoch { loss: 0, number }
}

fn txn(number: u32) -> TxnId {
    TxnId {
        epoch: epoch(number),
        n: 1,
    }
}

fn logical(lsn: u64, number: u32, body: Record) -> Physical {
    Physical::Logical {
        lsn: Lsn(lsn),
        epoch: epoch(number),
        body,
    }
}

fn operation(alloc: Global, prev: u64) -> Result<Physical, NoMemory> {
    let op = Op::Unmake(Name::from_slice(alloc, b"d")?);
    let body = Record::Operation {
        txn: txn(2),
        prev: Lsn(prev),
        op,
    };
    Ok(logical(3, 2, body))
}

fn plain(item: &Item) -> Physical {
    let (slot, at, len) = (0, Lsn(0), 0);
    match *item {
        Item::Head(generation) => Physical::Head {
            generation,
            partition: 7,
        },
        Item::EpochStart(lsn, number, named) => {
            let epoch = epoch(named);
            logical(lsn, number, Record::EpochStart { epoch })
        }
        Item::Begin(lsn, number, of) => logical(lsn, number, Record::Begin { txn: txn(of) }),
        Item::Barrier(lsn, number, stable) => {
            let stable = Lsn(stable);
            logical(lsn, number, Record::Barrier { stable })
        }
        Item::Fence(number) => Physical::Fence {
            epoch: epoch(number),
        },
        Item::CheckpointDone => Physical::CheckpointDone { slot, at, len },
        Item::Reset => Physical::Reset { slot, at, len },
        Item::TruncateTail | Item::Operation(_) => Physical::TruncateTail { lsn: Lsn(0) },
    }
}

fn physical(alloc: Global, item: &Item) -> Result<Physical, NoMemory> {
    match item {
        Item::Operation(prev) => operation(alloc, *prev),
        _ => Ok(plain(item)),
    }
}

fn push(group: &mut Group, item: Physical) -> Result<(), NoMemory> {
    if physical_fits(&item) {
        group.push(item)?;
    }
    Ok(())
}

fn push_all(alloc: Global, group: &mut Group, items: &[Item]) -> Result<(), NoMemory> {
    for item in items {
        push(group, physical(alloc, item)?)?;
    }
    Ok(())
}

// Adds a block of this group to an area, whatever its records are.
fn write(alloc: Global, disk: &mut MemDisk, area: Area, group: &mut Group) -> Result<(), LogError> {
    let (mut log, _blocks) = GatedLog::mount(alloc, disk, area)?;
    if group.payload_len() <= 1_048_576 {
        group.flush(&mut log, disk)?;
    }
    Ok(())
}

fn write_items(
    alloc: Global,
    disk: &mut MemDisk,
    area: Area,
    items: &[Item],
) -> Result<(), LogError> {
    let mut group = Group::new(alloc);
    push_all(alloc, &mut group, items)?;
    write(alloc, disk, area, &mut group)
}

// Adds a block of this payload.
fn write_payload(alloc: Global, disk: &mut MemDisk, payload: &[u8]) -> Result<(), LogError> {
    let (mut log, _blocks) = GatedLog::mount(alloc, disk, LOG0)?;
    if !payload.is_empty() && payload.len() <= 1_048_576 {
        log.append(disk, payload)?;
    }
    Ok(())
}

fn is_item(had: Epoch, record: &Record, item: &Item) -> bool {
    match (record, item) {
        (Record::EpochStart { epoch: named }, Item::EpochStart(_, number, of)) => {
            had == epoch(*number) && *named == epoch(*of)
        }
        (Record::Begin { txn: begun }, Item::Begin(_, number, of)) => {
            had == epoch(*number) && *begun == txn(*of)
        }
        (Record::Barrier { stable }, Item::Barrier(_, number, at)) => {
            had == epoch(*number) && *stable == Lsn(*at)
        }
        _ => false,
    }
}

fn has(told: &Durable, items: &[Item]) -> bool {
    let records = told.records.as_slice();
    if records.len() != items.len() {
        return false;
    }
    let mut same = true;
    for i in 0..records.len() {
        let (had, record) = &records[i];
        same &= is_item(*had, record, &items[i]);
    }
    same
}

// Whether the disk's log has the identity 7, this fence and these records. A new log would have another identity.
fn holds(alloc: Global, disk: &mut MemDisk, fence: u32, items: &[Item]) -> bool {
    match LogStore::recover(alloc, disk, 99) {
        Ok((store, told)) => {
            store.identity() == 7 && told.fence == epoch(fence) && has(&told, items)
        }
        Err(_) => false,
    }
}

// The number of the area and the place where a log is wrong; none where it is opened.
fn told(
    recovered: &Result<(LogStore, Durable), RecoverError>,
) -> Result<Option<(u32, u64)>, LogError> {
    match recovered {
        Ok(_) => Ok(None),
        Err(RecoverError::Corrupt { area, at }) => Ok(Some((area.number(), *at))),
        Err(RecoverError::Disk) => Err(LogError::Disk),
        Err(RecoverError::NoMemory) => Err(LogError::NoMemory),
    }
}

// A disk with no log begins one with this identity.
fn open(alloc: Global, disk: &mut MemDisk, identity: u128) -> Result<Option<(u32, u64)>, LogError> {
    let recovered = LogStore::recover(alloc, disk, identity);
    told(&recovered)
}

fn has_bytes(alloc: Global, disk: &mut MemDisk, bytes: &[u8]) -> Result<bool, LogError> {
    let read = read_all(alloc, disk, LOG0)?;
    Ok(read.as_slice() == bytes)
}

// What is done with a disk, and what comes of it.
#[derive(Clone, Copy)]
enum Step {
    // A block more in the area with this number, of these records.
    Block(u32, &'static [Item]),
    // A block more in the first area, of this payload.
    Payload(&'static [u8]),
    // The log is opened, and begins with the identity 7 where there is none.
    Opens,
    // The log has this fence and these records.
    Holds(u32, &'static [Item]),
    // The area with this number is wrong, at this place.
    Wrong(u32, u64),
    // The first area has these bytes.
    Bytes(&'static [u8]),
}

// Whether it comes so.
fn take(alloc: Global, disk: &mut MemDisk, step: &Step) -> Result<bool, LogError> {
    match step {
        Step::Block(area, items) => {
            write_items(alloc, disk, area_of(*area), items)?;
            Ok(true)
        }
        Step::Payload(payload) => {
            write_payload(alloc, disk, payload)?;
            Ok(true)
        }
        Step::Opens => Ok(open(alloc, disk, 7)?.is_none()),
        Step::Holds(fence, items) => Ok(holds(alloc, disk, *fence, items)),
        Step::Wrong(area, at) => Ok(open(alloc, disk, 99)? == Some((*area, *at))),
        Step::Bytes(bytes) => has_bytes(alloc, disk, bytes),
    }
}

fn area_of(number: u32) -> Area {
    if number == 0 { LOG0 } else { LOG1 }
}

fn take_all(
    rt: &impl Abort,
    alloc: Global,
    disk: &mut MemDisk,
    steps: &[Step],
) -> Result<(), LogError> {
    for i in 0..steps.len() {
        assert!(rt; take(alloc, disk, &steps[i])?, "step {i}");
    }
    Ok(())
}

// For each of these a new disk takes its steps.
fn play_each(rt: &impl Abort, alloc: Global, cases: &[&[Step]]) -> Result<(), LogError> {
    for steps in cases {
        let mut disk = MemDisk::new(alloc);
        take_all(rt, alloc, &mut disk, steps)?;
    }
    Ok(())
}

const NEW_LOG: [Step; 3] = [
    Step::Opens,
    Step::Bytes(&[
        1, 0, 0, 0, 26, 6, 1, 0, 0, 0, 0, 0, 0, 0, 1, 0, 0, 0, 0, 0, 0, 0, 0, 0, 0, 0, 0, 0, 0, 0,
        7, 0,
    ]),
    Step::Holds(0, &[]),
];

#[test]
fn a_new_disk_gets_a_head_and_keeps_its_identity(rt: HostRuntime) -> Result<(), Fail> {
    play_each(&rt, rt.alloc(), &[&NEW_LOG])?;
    Ok(())
}

const RECORDS: [Item; 3] = [
    Item::EpochStart(1, 3, 3),
    Item::Begin(2, 3, 3),
    Item::Barrier(3, 3, 2),
];

// The fence is that of the records, or a greater one of a Fence.
const BLOCKS: [Step; 8] = [
    Step::Block(0, &[Item::Head(1)]),
    Step::Block(0, &[Item::EpochStart(1, 3, 3), Item::Begin(2, 3, 3)]),
    Step::Block(0, &[Item::Barrier(3, 3, 2)]),
    Step::Holds(3, &RECORDS),
    Step::Block(0, &[Item::Fence(2)]),
    Step::Holds(3, &RECORDS),
    Step::Block(0, &[Item::Fence(5)]),
    Step::Holds(5, &RECORDS),
];

#[test]
fn blocks_are_read(rt: HostRuntime) -> Result<(), Fail> {
    play_each(&rt, rt.alloc(), &[&BLOCKS])?;
    Ok(())
}

// A log of a head and these records, each in a block of its own, and where it is wrong.
type Case = (&'static [Item], Option<(u32, u64)>);

fn is_wrong_at(alloc: Global, disk: &mut MemDisk, (items, wrong): Case) -> Result<bool, LogError> {
    write_items(alloc, disk, LOG0, &[Item::Head(1)])?;
    write_each(alloc, disk, items)?;
    Ok(open(alloc, disk, 99)? == wrong)
}

fn write_each(alloc: Global, disk: &mut MemDisk, items: &[Item]) -> Result<(), LogError> {
    for i in 0..items.len() {
        write_items(alloc, disk, LOG0, &items[i..i + 1])?;
    }
    Ok(())
}

fn judge_each(rt: &impl Abort, alloc: Global, cases: &[Case]) -> Result<(), LogError> {
    for i in 0..cases.len() {
        let mut disk = MemDisk::new(alloc);
        assert!(rt; is_wrong_at(alloc, &mut disk, cases[i])?, "case {i}");
    }
    Ok(())
}

// A block of one Fence has 14 bytes.
const AFTER_FENCE: Option<(u32, u64)> = Some((0, HEAD_BLOCK + 14));

const FOLD: [Case; 9] = [
    (&[Item::Fence(1), Item::Fence(2)], None),
    (&[Item::Fence(1), Item::Head(1)], AFTER_FENCE),
    (&[Item::Head(1), Item::Fence(1)], Some((0, HEAD_BLOCK))),
    (&[Item::Fence(1), Item::EpochStart(2, 1, 1)], AFTER_FENCE),
    (&[Item::Fence(1), Item::Begin(1, 1, 1)], AFTER_FENCE),
    (&[Item::Fence(1), Item::EpochStart(1, 0, 0)], AFTER_FENCE),
    (&[Item::Fence(1), Item::TruncateTail], AFTER_FENCE),
    (&[Item::Fence(1), Item::CheckpointDone], AFTER_FENCE),
    (&[Item::Fence(1), Item::Reset], AFTER_FENCE),
];

#[test]
fn a_record_that_breaks_the_fold_is_found_at_its_block(rt: HostRuntime) -> Result<(), Fail> {
    judge_each(&rt, rt.alloc(), &FOLD)?;
    Ok(())
}

// A block of one EpochStart or Barrier has 5 bytes, 17 of the position and epoch with their tag, and 9; that of a Begin
// has 8 more.
const AFTER_START: Option<(u32, u64)> = Some((0, HEAD_BLOCK + 31));

const AFTER_BEGIN: Option<(u32, u64)> = Some((0, HEAD_BLOCK + 70));

const EPOCHS: [Case; 6] = [
    (&[Item::EpochStart(1, 2, 2), Item::Barrier(2, 2, 1)], None),
    (
        &[Item::EpochStart(1, 2, 2), Item::Barrier(2, 1, 1)],
        AFTER_START,
    ),
    (
        &[Item::EpochStart(1, 2, 2), Item::Barrier(2, 3, 1)],
        AFTER_START,
    ),
    (
        &[Item::EpochStart(1, 2, 2), Item::EpochStart(2, 2, 2)],
        AFTER_START,
    ),
    (
        &[Item::EpochStart(1, 2, 2), Item::EpochStart(2, 1, 1)],
        AFTER_START,
    ),
    (
        &[Item::EpochStart(1, 2, 2), Item::EpochStart(2, 3, 4)],
        AFTER_START,
    ),
];

#[test]
fn an_epoch_that_falls_is_found(rt: HostRuntime) -> Result<(), Fail> {
    judge_each(&rt, rt.alloc(), &EPOCHS)?;
    Ok(())
}

// What breaks the fold is found before what may not stand in the tail.
const TAIL: [Case; 5] = [
    (&[Item::EpochStart(1, 2, 2), Item::Begin(2, 2, 2)], None),
    (
        &[Item::EpochStart(1, 2, 2), Item::Begin(2, 2, 1)],
        AFTER_START,
    ),
    (
        &[Item::EpochStart(1, 2, 2), Item::Barrier(2, 2, 2)],
        AFTER_START,
    ),
    (
        &[
            Item::EpochStart(1, 2, 2),
            Item::Barrier(2, 2, 2),
            Item::Barrier(3, 2, 3),
        ],
        AFTER_START,
    ),
    (
        &[
            Item::EpochStart(1, 2, 2),
            Item::Barrier(2, 2, 2),
            Item::Barrier(3, 2, 3),
            Item::Barrier(9, 2, 1),
        ],
        Some((0, HEAD_BLOCK + 93)),
    ),
];

#[test]
fn a_record_that_may_not_stand_in_the_tail_is_found_last(rt: HostRuntime) -> Result<(), Fail> {
    judge_each(&rt, rt.alloc(), &TAIL)?;
    Ok(())
}

const LINKS: [Case; 3] = [
    (
        &[
            Item::EpochStart(1, 2, 2),
            Item::Begin(2, 2, 2),
            Item::Operation(2),
        ],
        None,
    ),
    (
        &[
            Item::EpochStart(1, 2, 2),
            Item::Begin(2, 2, 2),
            Item::Operation(1),
        ],
        AFTER_BEGIN,
    ),
    (
        &[
            Item::EpochStart(1, 2, 2),
            Item::Begin(2, 2, 2),
            Item::Begin(3, 2, 2),
        ],
        AFTER_BEGIN,
    ),
];

#[test]
fn a_wrong_link_is_found(rt: HostRuntime) -> Result<(), Fail> {
    judge_each(&rt, rt.alloc(), &LINKS)?;
    Ok(())
}

// The payloads of first blocks: a head, a head and more, heads of generations 2 and 0, no record, and a Fence.
const FIRST_BLOCKS: [&[Step]; 6] = [
    &[
        Step::Payload(&[
            6, 1, 0, 0, 0, 0, 0, 0, 0, 1, 0, 0, 0, 0, 0, 0, 0, 0, 0, 0, 0, 0, 0, 0, 0, 7,
        ]),
        Step::Holds(0, &[]),
    ],
    &[
        Step::Payload(&[
            6, 1, 0, 0, 0, 0, 0, 0, 0, 1, 0, 0, 0, 0, 0, 0, 0, 0, 0, 0, 0, 0, 0, 0, 0, 7, 2,
        ]),
        Step::Wrong(0, 0),
    ],
    &[
        Step::Payload(&[
            6, 1, 0, 0, 0, 0, 0, 0, 0, 2, 0, 0, 0, 0, 0, 0, 0, 0, 0, 0, 0, 0, 0, 0, 0, 7,
        ]),
        Step::Wrong(0, 0),
    ],
    &[
        Step::Payload(&[
            6, 1, 0, 0, 0, 0, 0, 0, 0, 0, 0, 0, 0, 0, 0, 0, 0, 0, 0, 0, 0, 0, 0, 0, 0, 7,
        ]),
        Step::Wrong(0, 0),
    ],
    &[Step::Payload(&[9]), Step::Wrong(0, 0)],
    &[
        Step::Payload(&[2, 0, 0, 0, 0, 0, 0, 0, 2]),
        Step::Wrong(0, 0),
    ],
];

#[test]
fn a_first_block_is_a_heads(rt: HostRuntime) -> Result<(), Fail> {
    play_each(&rt, rt.alloc(), &FIRST_BLOCKS)?;
    Ok(())
}

// First no first block is open in the first area, and then it has no head; generations that are equal; the greater one.
const TWO_AREAS: [&[Step]; 3] = [
    &[
        Step::Block(1, &[Item::Head(1)]),
        Step::Block(1, &[Item::Fence(4)]),
        Step::Holds(4, &[]),
        Step::Block(0, &[Item::Fence(5)]),
        Step::Holds(4, &[]),
    ],
    &[
        Step::Block(0, &[Item::Head(1)]),
        Step::Block(1, &[Item::Head(1)]),
        Step::Block(1, &[Item::Fence(4)]),
        Step::Holds(0, &[]),
    ],
    &[
        Step::Block(0, &[Item::Head(1)]),
        Step::Block(1, &[Item::Head(2)]),
        Step::Wrong(1, 0),
    ],
];

#[test]
fn the_area_of_the_greater_generation_is_taken(rt: HostRuntime) -> Result<(), Fail> {
    play_each(&rt, rt.alloc(), &TWO_AREAS)?;
    Ok(())
}

// A block of an EpochStart and Barriers up to the position 3,999.
fn write_thousands(alloc: Global, disk: &mut MemDisk) -> Result<(), LogError> {
    let mut group = Group::new(alloc);
    push(&mut group, plain(&Item::EpochStart(1, 1, 1)))?;
    for lsn in 2..4000u64 {
        push(&mut group, plain(&Item::Barrier(lsn, 1, lsn - 1)))?;
    }
    write(alloc, disk, LOG0, &mut group)
}

// How many records the disk's log has, and whether the last is this one.
fn count_to(alloc: Global, disk: &mut MemDisk, item: &Item) -> (usize, bool) {
    match LogStore::recover(alloc, disk, 99) {
        Ok((_store, told)) => {
            let records = told.records.as_slice();
            match records.last() {
                Some((had, record)) => (records.len(), is_item(*had, record, item)),
                None => (0, false),
            }
        }
        Err(_) => (0, false),
    }
}

// A log of a head and that block.
fn thousands(alloc: Global) -> Result<(usize, bool), LogError> {
    let mut disk = MemDisk::new(alloc);
    write_items(alloc, &mut disk, LOG0, &[Item::Head(1)])?;
    write_thousands(alloc, &mut disk)?;
    Ok(count_to(alloc, &mut disk, &Item::Barrier(3999, 1, 3998)))
}

#[test]
fn some_thousand_records_are_read(rt: HostRuntime) -> Result<(), Fail> {
    assert_eq!(rt; thousands(rt.alloc())?, (3999, true));
    Ok(())
}

// A group that goes on with a new log, of an EpochStart, a Begin and a Fence.
fn first_group(alloc: Global) -> Result<Group, NoMemory>
    ensures { IfOk result (λ g. g ≡ first_items) }
{
    let one = Epoch { loss: 0, number: 1 };
    let mut group = Group::new(alloc);
    group.push(Physical::Logical {
        lsn: Lsn(1),
        epoch: one,
        body: Record::EpochStart { epoch: one },
    })?;
    group.push(Physical::Logical {
        lsn: Lsn(2),
        epoch: one,
        body: Record::Begin {
            txn: TxnId { epoch: one, n: 1 },
        },
    })?;
    group.push(Physical::Fence {
        epoch: Epoch { loss: 0, number: 4 },
    })?;
    Ok(group)
}

// Appends that group to a new log. The device call of this number, counted from 1, fails and each later one.
fn append_first(
    rt: &impl Abort,
    alloc: Global,
    disk: &mut MemDisk,
    call: u64,
) -> Result<Result<(), LogError>, NoMemory>
    requires { 1 ≤ call }
{
    match LogStore::recover(alloc, disk, 7) {
        Ok((mut store, told)) => {
            assert!(rt; told.records.is_empty());
            let mut group = first_group(alloc)?;
            assert_eq!(rt; group.payload_len(), 69);
            disk.arm(call);
            let result = store.append(disk, &mut group);
            assert_eq!(rt; group.is_empty(), result.is_ok());
            Ok(result)
        }
        Err(_) => panic!(rt; "a new disk is opened"),
    }
}

// The records of that group.
const FIRST: [Item; 2] = [Item::EpochStart(1, 1, 1), Item::Begin(2, 1, 1)];

#[test]
fn an_append_is_read(rt: HostRuntime) -> Result<(), Fail> {
    let mut disk = MemDisk::new(rt.alloc());
    let result = append_first(&rt, rt.alloc(), &mut disk, 1000)?;
    assert_eq!(rt; result, Ok(()));
    assert!(rt; holds(rt.alloc(), &mut disk, 4, &FIRST));
    Ok(())
}

// An append that is stopped at the device call of this number, counted from 0, leaves all of the group or nothing of it.
fn expect_stopped(
    rt: &impl Abort,
    alloc: Global,
    call: u8,
    pick: u8,
    is_there: bool,
) -> Result<(), NoMemory> {
    let mut disk = MemDisk::new(alloc);
    let result = append_first(rt, alloc, &mut disk, u64::from(call) + 1)?;
    assert_eq!(rt; result, Err(LogError::Disk));
    disk.crash(u64::from(pick));
    assert_eq!(rt; holds(alloc, &mut disk, 4, &FIRST), is_there);
    assert_eq!(rt; holds(alloc, &mut disk, 0, &[]), !is_there);
    Ok(())
}

// The body and its sync are calls 0 and 1, the gate and its sync are calls 2 and 3.
fn expect_all_stopped(rt: &impl Abort, alloc: Global) -> Result<(), NoMemory> {
    for call in 0..4u8 {
        for pick in 0..3u8 {
            expect_stopped(rt, alloc, call, pick, call >= 2 && pick == 1)?;
        }
    }
    Ok(())
}

#[test]
fn a_stopped_append_leaves_all_or_nothing(rt: HostRuntime) -> Result<(), Fail> {
    expect_all_stopped(&rt, rt.alloc())?;
    Ok(())
}

// A new disk fails at the call of this number, counted from 0, and the log is opened after a stop.
fn expect_failing(rt: &impl Abort, alloc: Global, call: u8) {
    let mut disk = MemDisk::new(alloc);
    disk.arm(u64::from(call) + 1);
    assert_eq!(rt; open(alloc, &mut disk, 7), Err(LogError::Disk));
    disk.crash(1);
    assert_eq!(rt; open(alloc, &mut disk, 7), Ok(None));
}

#[test]
fn a_failing_disk_is_told(rt: HostRuntime) {
    for call in 0..11u8 {
        expect_failing(&rt, rt.alloc(), call);
    }
}
