ghost use Rattle.std.specs.Prelude.{◌≤◌};

use crate::playing::{Told, write_rows};
use coll_model::{Kind, Op, Ops};
use provider_law::{Ask, LoadError, Reply};
use rc_base::{Bytes, Lsn, Name, NoMemory};
use rc_collections::Collection;
use state_manager::Manager;
use std::alloc::Global;
use std::test::*;

// An operation, by its name and what else it has.
#[derive(Clone, Copy)]
enum Change {
    Make(&'static str, Kind),
    Unmake(&'static str),
    Put(&'static str, &'static str, &'static str),
    Push(&'static str, &'static str),
    Pop(&'static str),
}

// What is done with the collections of all names, or asked of them.
#[derive(Clone, Copy)]
enum Deed {
    Commit(&'static [Change]),
    Undo,
    Merge,
    // Saved at the version, and loaded again.
    Reload,
    Names,
    // The items of the collection of a name.
    List(&'static str),
}

// At which version, and what is to be replied.
type Step = (Deed, u64, &'static str);

const MAKE_D: [Change; 2] = [Change::Make("d", Kind::Dict), Change::Put("d", "k", "a")];

const DROP_D_MAKE_E: [Change; 3] = [
    Change::Unmake("d"),
    Change::Make("e", Kind::Queue),
    Change::Push("e", "x"),
];

const D_AS_QUEUE: [Change; 3] = [
    Change::Make("d", Kind::Queue),
    Change::Push("d", "b"),
    Change::Push("e", "y"),
];

// Made, dropped, and made again as one of another kind, with what is seen at each version.
const MADE_AGAIN: [Step; 22] = [
    (Deed::Commit(&MAKE_D), 2, ""),
    (Deed::Commit(&DROP_D_MAKE_E), 4, ""),
    (Deed::Commit(&D_AS_QUEUE), 6, ""),
    (Deed::Names, 1, ""),
    (Deed::Names, 3, "d"),
    (Deed::Names, 5, "e"),
    (Deed::Names, 6, "d e"),
    (Deed::List("d"), 3, "k=a"),
    (Deed::List("d"), 5, "-"),
    (Deed::List("d"), 6, "b"),
    (Deed::Undo, 5, ""),
    (Deed::Names, 9, "e"),
    (Deed::List("e"), 9, "x"),
    // The drop is undone too.
    (Deed::Undo, 3, ""),
    (Deed::Names, 9, "d"),
    (Deed::List("d"), 9, "k=a"),
    (Deed::Commit(&D_AS_QUEUE), 3, "refused"),
    (Deed::Commit(&DROP_D_MAKE_E), 4, ""),
    (Deed::Merge, 3, ""),
    (Deed::List("d"), 2, "below the floor"),
    (Deed::List("d"), 3, "k=a"),
    (Deed::List("d"), 4, "-"),
];

// A name that is dropped and made again in one commit is a new collection.
const ANOTHER_D: [Change; 3] = [
    Change::Unmake("d"),
    Change::Make("d", Kind::Dict),
    Change::Put("d", "j", "c"),
];

const POP_E: [Change; 2] = [Change::Pop("e"), Change::Put("e", "k", "z")];

const IN_ONE_COMMIT: [Step; 14] = [
    (Deed::Commit(&MAKE_D), 1, ""),
    (Deed::Commit(&ANOTHER_D), 2, ""),
    (Deed::List("d"), 1, "k=a"),
    (Deed::List("d"), 2, "j=c"),
    (Deed::Commit(&DROP_D_MAKE_E), 3, ""),
    (Deed::Commit(&POP_E), 4, ""),
    (Deed::List("e"), 3, "x"),
    (Deed::List("e"), 4, ""),
    (Deed::Reload, 3, ""),
    (Deed::Names, 3, "e"),
    (Deed::List("e"), 4, "x"),
    (Deed::Names, 2, "below the floor"),
    (Deed::Commit(&MAKE_D), 4, ""),
    (Deed::Names, 4, "d e"),
];

const CASES: [&[Step]; 2] = [&MADE_AGAIN, &IN_ONE_COMMIT];

fn name(alloc: Global, text: &str) -> Result<Name, NoMemory> {
    Name::from_slice(alloc, text.as_bytes())
}

fn word(alloc: Global, text: &str) -> Result<Bytes, NoMemory> {
    Bytes::from_slice(alloc, text.as_bytes())
}

fn op_of(alloc: Global, change: &Change) -> Result<Op, NoMemory> {
    Ok(match *change {
        Change::Make(d, kind) => Op::Make(name(alloc, d)?, kind),
        Change::Unmake(d) => Op::Unmake(name(alloc, d)?),
        Change::Put(d, key, value) => put(alloc, d, key, value)?,
        Change::Push(d, value) => push(alloc, d, value)?,
        Change::Pop(d) => Op::Pop(name(alloc, d)?),
    })
}

fn put(alloc: Global, d: &str, key: &str, value: &str) -> Result<Op, NoMemory> {
    let d = name(alloc, d)?;
    let key = word(alloc, key)?;
    Ok(Op::Put(d, key, word(alloc, value)?))
}

fn push(alloc: Global, d: &str, value: &str) -> Result<Op, NoMemory> {
    let d = name(alloc, d)?;
    Ok(Op::Push(d, word(alloc, value)?))
}

fn ops_of(alloc: Global, changes: &[Change]) -> Result<Ops, NoMemory> {
    let mut ops = Ops::new(alloc);
    for change in changes {
        ops.push(op_of(alloc, change)?)?;
    }
    Ok(ops)
}

fn committed(made: &mut Manager<Collection>, v: Lsn, ops: &[Op]) -> Result<bool, NoMemory> {
    if v <= made.top() {
        return Ok(false);
    }
    made.apply(v, ops)?;
    Ok(true)
}

fn commit(
    alloc: Global,
    made: &mut Manager<Collection>,
    v: Lsn,
    changes: &[Change],
) -> Result<bool, NoMemory> {
    let ops = ops_of(alloc, changes)?;
    committed(made, v, ops.as_slice())
}

fn undone(made: &mut Manager<Collection>, v: Lsn) -> bool {
    if v < made.floor() {
        return false;
    }
    made.undo_above(v);
    true
}

fn merged(made: &mut Manager<Collection>, v: Lsn) -> bool {
    if v < made.floor() || made.top() < v {
        return false;
    }
    made.merge_below(v);
    true
}

fn reloaded(
    alloc: Global,
    made: &Manager<Collection>,
    v: Lsn,
) -> Result<Manager<Collection>, LoadError> {
    let v = v.max(made.floor());
    let saved = made.save(v)?;
    Manager::load(alloc, v, &saved)
}

// Whether the step could be done.
fn done(alloc: Global, made: &mut Manager<Collection>, step: &Step) -> Result<bool, LoadError> {
    let v = Lsn(step.1);
    match step.0 {
        Deed::Commit(changes) => Ok(commit(alloc, made, v, changes)?),
        Deed::Undo => Ok(undone(made, v)),
        Deed::Merge => Ok(merged(made, v)),
        _ => {
            *made = reloaded(alloc, made, v)?;
            Ok(true)
        }
    }
}

fn write_names(text: &mut Vec<u8>, made: &Manager<Collection>, v: Lsn) -> Result<(), NoMemory>
    requires { made.now.floor.0 ≤ v.0 }
{
    let mut space: &[u8] = b"";
    let names = made.names(v)?;
    for name in names.as_slice() {
        text.extend_from_slice(space)?;
        text.extend_from_slice(name.as_slice())?;
        space = b" ";
    }
    Ok(())
}

fn write_items(
    alloc: Global,
    text: &mut Vec<u8>,
    made: &Manager<Collection>,
    v: Lsn,
    d: &str,
) -> Result<(), NoMemory>
    requires { made.now.floor.0 ≤ v.0 }
{
    match made.read(v, &name(alloc, d)?, &Ask::List)? {
        Some(Reply::Rows(rows)) => write_rows(alloc, text, &rows),
        _ => Ok(text.push(b'-')?),
    }
}

// What is asked, at a version that isn't below the floor.
fn ask(
    alloc: Global,
    text: &mut Vec<u8>,
    made: &Manager<Collection>,
    v: Lsn,
    deed: Deed,
) -> Result<(), NoMemory> {
    if v < made.floor() {
        return Ok(text.extend_from_slice(b"below the floor")?);
    }
    match deed {
        Deed::List(d) => write_items(alloc, text, made, v, d),
        _ => write_names(text, made, v),
    }
}

fn play_step(
    told: &mut Told,
    alloc: Global,
    made: &mut Manager<Collection>,
    step: &Step,
) -> Result<(), LoadError> {
    if matches!(step.0, Deed::Names | Deed::List(_)) {
        ask(alloc, &mut told.got, made, Lsn(step.1), step.0)?;
        return Ok(told.end_line(step.2)?);
    }
    if !done(alloc, made, step)? {
        told.refuse(step.2)?;
    }
    Ok(())
}

fn play(told: &mut Told, alloc: Global, steps: &[Step]) -> Result<(), LoadError> {
    let mut made = Manager::new(alloc);
    for step in steps {
        play_step(told, alloc, &mut made, step)?;
    }
    Ok(())
}

fn played(alloc: Global) -> Result<Told, LoadError> {
    let mut told = Told::new(alloc);
    for steps in CASES {
        play(&mut told, alloc, steps)?;
    }
    Ok(told)
}

#[test]
fn states_are_as_written(rt: HostRuntime) -> Result<(), Fail> {
    let told = played(rt.alloc())?;
    assert_eq!(rt; told.got.as_slice(), told.wanted.as_slice());
    Ok(())
}
