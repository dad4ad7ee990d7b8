use coll_model::{Kind, Op};
use disk_model::MemDisk;
use log_records::{Items, Record};
use log_store::LogStore;
use rc_base::{Bytes, Epoch, Lsn, Name, NoMemory, TxnId};
use rc_io::{MemHost, MemSink, MemSource};
use shell::{Kit, nine_disks, run};
use std::alloc::Global;
use std::process::Abort;
use std::test::*;

// One transaction, and a crash after it.
const SCRIPT: &[u8] =
    b"boot 0 0\nbegin 0\nmake 0 0.1.1 d dict\nset 0 0.1.1 d k v\ncommit 0 0.1.1\ncrash 0 0\n";

const ONE: Epoch = Epoch { loss: 0, number: 1 };

const FIRST: TxnId = TxnId {
    epoch: Epoch { loss: 0, number: 1 },
    n: 1,
};

// What a run of the script answers, what it writes, and the disks that it leaves.
#[derive(Drop)]
struct Played {
    status: u8,
    text: Vec<u8>,
    fleet: Vec<MemDisk>,
}

// The words of the command.
fn world_words(alloc: Global) -> Result<Vec<String>, Fail> {
    let mut words = Vec::new(alloc);
    words.push(String::from_str(alloc, "world")?)?;
    Ok(words)
}

// A run of the script over this source and this sink.
fn play_script(alloc: Global, mut source: MemSource, mut sink: MemSink) -> Result<Played, Fail> {
    let words = world_words(alloc)?;
    let mut host = MemHost::new(alloc, Vec::new(alloc));
    let mut fleet = nine_disks(alloc)?;
    let status = run(
        alloc,
        &words,
        &mut source,
        &mut sink,
        &mut fleet,
        &mut host,
        Kit {},
    );
    let text = Vec::from_slice(alloc, sink.bytes())?;
    Ok(Played {
        status,
        text,
        fleet,
    })
}

// Calls of a source that fail, calls of a sink that do, and the bytes that the sink takes at all.
type Faults = (&'static [u64], &'static [u64], Option<u64>);

// With these faults the run answers the status, and writes the text.
fn ends(
    rt: &impl Abort,
    alloc: Global,
    faults: Faults,
    status: u8,
    text: &[u8],
) -> Result<(), Fail> {
    let source = MemSource::new(
        Vec::from_slice(alloc, SCRIPT)?,
        Vec::from_slice(alloc, faults.0)?,
    );
    let sink = MemSink::new(alloc, faults.2, Vec::from_slice(alloc, faults.1)?);
    let run = play_script(alloc, source, sink)?;
    assert_eq!(rt; run.status, status);
    assert_eq!(rt; run.text.as_slice(), text);
    Ok(())
}

const TEXT: &[u8] =
    b"1 up 0\n1 view 0 0\n1 active 0\n1 ok\n2 txn 0.1.1\n3 true\n4 ok\n5 order 0.1.1 make:d:dict put:d:k:v\n5 view 0 1\n5 committed 0.1.1\n6 ok\n";

#[test]
fn faults_of_streams(rt: HostRuntime) -> Result<(), Fail> {
    let rows: [(Faults, u8, &[u8]); 5] = [
        ((&[], &[], None), 0, TEXT),
        // The sink takes 20 bytes and then fails; or it fails at its third write.
        ((&[], &[], Some(20)), 5, b"1 up 0\n1 view 0 0\n1 "),
        (
            (&[], &[3], None),
            5,
            b"1 up 0\n1 view 0 0\n1 active 0\n1 ok\n2 txn 0.1.1\n",
        ),
        // The source fails at its first read; or at its second, behind all lines.
        ((&[1], &[], None), 4, b""),
        ((&[2], &[], None), 4, TEXT),
    ];
    for (faults, status, text) in rows {
        ends(&rt, rt.alloc(), faults, status, text)?;
    }
    Ok(())
}

// The log behind the transaction.
fn records(alloc: Global) -> Result<[Record; 7], NoMemory> {
    let name = Name::from_slice(alloc, b"d")?;
    let key = Bytes::from_slice(alloc, b"k")?;
    let value = Bytes::from_slice(alloc, b"v")?;
    Ok([
        Record::EpochStart { epoch: ONE },
        Record::Barrier { stable: Lsn(1) },
        Record::Begin { txn: FIRST },
        Record::Operation {
            txn: FIRST,
            prev: Lsn(3),
            op: Op::Make(name.clone()?, Kind::Dict),
        },
        Record::Operation {
            txn: FIRST,
            prev: Lsn(4),
            op: Op::Put(name, key, value),
        },
        Record::End {
            txn: FIRST,
            prev: Lsn(5),
            committed: true,
        },
        Record::Barrier { stable: Lsn(6) },
    ])
}

// Whether these are the records of epoch 0.1, in order.
fn are_records(alloc: Global, held: &Items) -> Result<bool, NoMemory> {
    let wanted = records(alloc)?;
    let same = held
        .as_slice()
        .iter()
        .zip(wanted.iter())
        .all(|(had, record)| had.0 == ONE && had.1 == *record);
    Ok(same && held.len() == wanted.len())
}

// What a log holds on a disk.
fn held_by(alloc: Global, disk: &mut MemDisk) -> Result<Items, Fail> {
    let (_, held) = LogStore::recover(alloc, disk, 9)?;
    Ok(held.records)
}

#[test]
fn the_log_has_the_records_of_its_steps(rt: HostRuntime) -> Result<(), Fail> {
    let source = MemSource::new(Vec::from_slice(rt.alloc(), SCRIPT)?, Vec::new(rt.alloc()));
    let sink = MemSink::new(rt.alloc(), None, Vec::new(rt.alloc()));
    let mut run = play_script(rt.alloc(), source, sink)?;
    let Some(disk) = run.fleet.first_mut() else {
        panic!(rt; "no disk");
    };
    let held = held_by(rt.alloc(), disk)?;
    assert!(rt; are_records(rt.alloc(), &held)?);
    Ok(())
}
