use coll_model::{Kind, Op, Ops, Rows, row_words};
use provider_law::{Ask, LoadError, Reply, StateProvider, apply_all};
use rc_base::{Bytes, Lsn, Name, NoMemory};
use rc_collections::Collection;
use std::alloc::Global;

#[derive(Clone, Copy)]
pub enum Act {
    Put,
    Del,
    Push,
    Pop,
    // Two puts at once: the value at the key, and the key at the value.
    Batch,
    Undo,
    Merge,
    // Saved at the version, and loaded again.
    Reload,
    List,
    Count,
    Get,
    Item(u64),
}

// What is done, at which version, and a key. The last is a value, or, where something is asked, what is to be replied.
pub type Step = (Act, u64, &'static str, &'static str);

// What was replied, and what was wanted: a line for each step that asks or is refused.
#[derive(Drop)]
pub struct Told {
    pub got: Vec<u8>,
    pub wanted: Vec<u8>,
}

fn put(alloc: Global, key: &str, value: &str) -> Result<Op, NoMemory> {
    let key = Bytes::from_slice(alloc, key.as_bytes())?;
    let value = Bytes::from_slice(alloc, value.as_bytes())?;
    Ok(Op::Put(Name::new(alloc), key, value))
}

fn del(alloc: Global, key: &str) -> Result<Op, NoMemory> {
    let key = Bytes::from_slice(alloc, key.as_bytes())?;
    Ok(Op::Del(Name::new(alloc), key))
}

fn push(alloc: Global, value: &str) -> Result<Op, NoMemory> {
    let value = Bytes::from_slice(alloc, value.as_bytes())?;
    Ok(Op::Push(Name::new(alloc), value))
}

fn op_of(alloc: Global, act: Act, key: &str, value: &str) -> Result<Op, NoMemory> {
    match act {
        Act::Put => put(alloc, key, value),
        Act::Del => del(alloc, key),
        Act::Push => push(alloc, value),
        _ => Ok(Op::Pop(Name::new(alloc))),
    }
}

fn ask_of(alloc: Global, act: Act, key: &str) -> Result<Ask, NoMemory> {
    Ok(match act {
        Act::Get => Ask::Get(Bytes::from_slice(alloc, key.as_bytes())?),
        Act::Count => Ask::Count,
        Act::Item(place) => Ask::Item(place),
        _ => Ask::List,
    })
}

fn write_words(text: &mut Vec<u8>, words: &[Bytes]) -> Result<(), NoMemory> {
    let mut space: &[u8] = b"";
    for word in words {
        text.extend_from_slice(space)?;
        text.extend_from_slice(word.as_slice())?;
        space = b" ";
    }
    Ok(())
}

pub fn write_rows(alloc: Global, text: &mut Vec<u8>, rows: &Rows) -> Result<(), NoMemory> {
    let words = row_words(alloc, rows.kind(), rows)?;
    write_words(text, words.as_slice())
}

fn write_count(alloc: Global, text: &mut Vec<u8>, count: u64) -> Result<(), NoMemory> {
    let digits = format!(in alloc; "{count}")?;
    text.extend_from_slice(digits.as_bytes())?;
    Ok(())
}

fn write_reply(alloc: Global, text: &mut Vec<u8>, reply: &Reply) -> Result<(), NoMemory> {
    match reply {
        Reply::Missing => Ok(text.push(b'-')?),
        Reply::Value(value) => Ok(text.extend_from_slice(value.as_slice())?),
        Reply::Count(count) => write_count(alloc, text, *count),
        Reply::Rows(rows) => write_rows(alloc, text, rows),
    }
}

// What is asked, at a version that isn't below the floor.
fn read(
    alloc: Global,
    text: &mut Vec<u8>,
    made: &Collection,
    v: Lsn,
    ask: &Ask,
) -> Result<(), NoMemory> {
    if v < made.floor() {
        return Ok(text.extend_from_slice(b"below the floor")?);
    }
    let reply = made.read(alloc, v, ask)?;
    write_reply(alloc, text, &reply)
}

fn applied(made: &mut Collection, v: Lsn, op: &Op) -> Result<bool, NoMemory> {
    if v < made.top() {
        return Ok(false);
    }
    made.apply(v, op)?;
    Ok(true)
}

fn batch(made: &mut Collection, v: Lsn, ops: &[Op]) -> Result<bool, NoMemory> {
    if v <= made.top() {
        return Ok(false);
    }
    apply_all(made, v, ops)?;
    Ok(true)
}

fn two_puts(alloc: Global, key: &str, value: &str) -> Result<Ops, NoMemory> {
    let mut ops = Ops::new(alloc);
    for (key, value) in [(key, value), (value, key)] {
        ops.push(put(alloc, key, value)?)?;
    }
    Ok(ops)
}

fn reloaded(alloc: Global, made: &Collection, v: Lsn) -> Result<Collection, LoadError> {
    let v = v.max(made.floor());
    let rows = made.save(alloc, v)?;
    Collection::load(alloc, made.kind(), v, &rows)
}

fn undone(made: &mut Collection, v: Lsn) -> bool {
    if v < made.floor() {
        return false;
    }
    made.undo_above(v);
    true
}

fn merged(made: &mut Collection, v: Lsn) -> bool {
    if v < made.floor() || made.top() < v {
        return false;
    }
    made.merge_below(v);
    true
}

fn operated(alloc: Global, made: &mut Collection, step: &Step) -> Result<bool, NoMemory> {
    let (act, v, key, value) = *step;
    let op = op_of(alloc, act, key, value)?;
    applied(made, Lsn(v), &op)
}

fn batched(alloc: Global, made: &mut Collection, step: &Step) -> Result<bool, NoMemory> {
    let (_, v, key, value) = *step;
    let ops = two_puts(alloc, key, value)?;
    batch(made, Lsn(v), ops.as_slice())
}

fn reload(alloc: Global, made: &mut Collection, v: Lsn) -> Result<bool, LoadError> {
    *made = reloaded(alloc, made, v)?;
    Ok(true)
}

// Whether the step could be done.
fn done(alloc: Global, made: &mut Collection, step: &Step) -> Result<bool, LoadError> {
    let v = Lsn(step.1);
    match step.0 {
        Act::Batch => Ok(batched(alloc, made, step)?),
        Act::Undo => Ok(undone(made, v)),
        Act::Merge => Ok(merged(made, v)),
        Act::Reload => reload(alloc, made, v),
        _ => Ok(operated(alloc, made, step)?),
    }
}

impl Told {
    pub fn new(alloc: Global) -> Told {
        Told {
            got: Vec::new(alloc),
            wanted: Vec::new(alloc),
        }
    }

    pub fn end_line(&mut self, wanted: &str) -> Result<(), NoMemory> {
        self.got.push(b'\n')?;
        self.wanted.extend_from_slice(wanted.as_bytes())?;
        self.wanted.push(b'\n')?;
        Ok(())
    }

    fn ask(&mut self, alloc: Global, made: &Collection, step: &Step) -> Result<(), NoMemory> {
        let (act, v, key, wanted) = *step;
        let ask = ask_of(alloc, act, key)?;
        read(alloc, &mut self.got, made, Lsn(v), &ask)?;
        self.end_line(wanted)
    }

    pub fn refuse(&mut self, wanted: &str) -> Result<(), NoMemory> {
        self.got.extend_from_slice(b"refused")?;
        self.end_line(wanted)
    }

    fn step(&mut self, alloc: Global, made: &mut Collection, step: &Step) -> Result<(), LoadError> {
        match step.0 {
            Act::List | Act::Count | Act::Get | Act::Item(_) => self.ask(alloc, made, step)?,
            _ => {
                if !done(alloc, made, step)? {
                    self.refuse(step.3)?;
                }
            }
        }
        Ok(())
    }

    fn play(&mut self, alloc: Global, kind: Kind, steps: &[Step]) -> Result<(), LoadError> {
        let mut made = Collection::make(alloc, kind);
        for step in steps {
            self.step(alloc, &mut made, step)?;
        }
        Ok(())
    }
}

// What the steps of each case tell, over a new collection of its kind.
pub fn played(alloc: Global, cases: &[(Kind, &[Step])]) -> Result<Told, LoadError> {
    let mut told = Told::new(alloc);
    for (kind, steps) in cases {
        told.play(alloc, *kind, steps)?;
    }
    Ok(told)
}
