use coll_model::{Collection, Kind, Op, State, row_words};
use rc_base::{Bytes, Name, NoMemory};
use std::alloc::Global;
use std::test::*;

#[derive(Clone, Copy)]
enum Verb {
    Make(Kind),
    Unmake,
    Put,
    Del,
    Push,
    Pop,
}

// An operation: what it does, to which collection, and a key and a value where it has them.
type Step = (Verb, &'static str, &'static str, &'static str);

// What the operations leave, a line for each collection.
const CASES: [(&[Step], &str); 4] = [
    (
        &[
            (Verb::Make(Kind::Dict), "d", "", ""),
            (Verb::Put, "d", "k", "v"),
            (Verb::Put, "d", "j", "w"),
            (Verb::Put, "d", "k", "x"),
            (Verb::Make(Kind::Queue), "d", "", ""),
        ],
        "d dict j=w k=x\n",
    ),
    (
        &[
            (Verb::Make(Kind::Queue), "q", "", ""),
            (Verb::Push, "q", "", "1"),
            (Verb::Push, "q", "", "2"),
            (Verb::Pop, "q", "", ""),
            (Verb::Push, "q", "", "3"),
            (Verb::Put, "q", "k", "v"),
        ],
        "q queue 2 3\n",
    ),
    (
        &[
            (Verb::Make(Kind::Dict), "b", "", ""),
            (Verb::Make(Kind::Dict), "a", "", ""),
            (Verb::Put, "a", "k", "v"),
            (Verb::Push, "a", "", "1"),
            (Verb::Del, "a", "k", ""),
            (Verb::Make(Kind::Queue), "c", "", ""),
            (Verb::Unmake, "b", "", ""),
        ],
        "a dict\nc queue\n",
    ),
    (
        &[
            (Verb::Put, "d", "k", "v"),
            (Verb::Del, "d", "k", ""),
            (Verb::Push, "d", "", "v"),
            (Verb::Pop, "d", "", ""),
            (Verb::Unmake, "d", "", ""),
        ],
        "",
    ),
];

fn op_of(alloc: Global, (verb, name, key, value): &Step) -> Result<Op, NoMemory> {
    let name = Name::from_slice(alloc, name.as_bytes())?;
    let key = Bytes::from_slice(alloc, key.as_bytes())?;
    let value = Bytes::from_slice(alloc, value.as_bytes())?;
    Ok(match *verb {
        Verb::Make(kind) => Op::Make(name, kind),
        Verb::Unmake => Op::Unmake(name),
        Verb::Put => Op::Put(name, key, value),
        Verb::Del => Op::Del(name, key),
        Verb::Push => Op::Push(name, value),
        Verb::Pop => Op::Pop(name),
    })
}

fn play(alloc: Global, step: &Step, state: &mut State) -> Result<(), NoMemory> {
    let op = op_of(alloc, step)?.clone()?;
    state.apply(&op)
}

fn played(alloc: Global, steps: &[Step]) -> Result<State, NoMemory> {
    let mut state = State::empty(alloc);
    for step in steps {
        play(alloc, step, &mut state)?;
    }
    Ok(state.clone()?)
}

fn write(collection: &Collection, words: &[Bytes], out: &mut Vec<u8>) -> Result<(), NoMemory> {
    out.extend_from_slice(collection.name.as_slice())?;
    out.push(b' ')?;
    out.extend_from_slice(collection.kind.word().as_bytes())?;
    for word in words {
        out.push(b' ')?;
        out.extend_from_slice(word.as_slice())?;
    }
    out.push(b'\n')?;
    Ok(())
}

fn tell(alloc: Global, collection: &Collection, out: &mut Vec<u8>) -> Result<(), NoMemory> {
    let words = row_words(alloc, collection.rows.kind(), &collection.rows)?;
    write(collection, words.as_slice(), out)
}

fn told(alloc: Global, steps: &[Step]) -> Result<Vec<u8>, NoMemory> {
    let image = played(alloc, steps)?.image()?;
    let mut out = Vec::new(alloc);
    for collection in image.as_slice() {
        tell(alloc, collection, &mut out)?;
    }
    Ok(out)
}

#[test]
fn operations_leave_collections(rt: HostRuntime) -> Result<(), Fail> {
    for (steps, wanted) in CASES {
        assert_eq!(rt; told(rt.alloc(), steps)?.as_slice(), wanted.as_bytes());
    }
    Ok(())
}
