// The rounds of each form, by the calls of the trait.
use crate::forms::Form;
use coll_model::{Kind, Op};
use provider_law::{Ask, Reply, StateProvider};
use rc_base::{Bytes, Lsn, Name, NoMemory};
use rc_collections::Collection;
use std::alloc::Global;

// Rounds go over the keys by this stride, so that one isn't beside the next, but for the forms that take each in its turn. It is a
// prime, so each key comes.
const STRIDE: u64 = 7_919;

/// What rounds tell.
#[derive(Clone, Copy)]
pub struct Played {
    /// How many rounds found something.
    pub found: u64,
    /// How many items there are then.
    pub at_last: u64,
}

// What a round's number names of so many.
fn place(round: u64, count: u64) -> u64 {
    round.wrapping_mul(STRIDE).checked_rem(count).unwrap_or(0)
}

fn bytes(alloc: Global, number: u64) -> Result<Bytes, NoMemory> {
    Bytes::from_slice(alloc, &number.to_be_bytes())
}

fn put(alloc: Global, key: u64, value: u64) -> Result<Op, NoMemory> {
    let key = bytes(alloc, key)?;
    let value = bytes(alloc, value)?;
    Ok(Op::Put(Name::new(alloc), key, value))
}

fn del(alloc: Global, key: u64) -> Result<Op, NoMemory> {
    Ok(Op::Del(Name::new(alloc), bytes(alloc, key)?))
}

fn push(alloc: Global, value: u64) -> Result<Op, NoMemory> {
    Ok(Op::Push(Name::new(alloc), bytes(alloc, value)?))
}

fn pop(alloc: Global) -> Op {
    Op::Pop(Name::new(alloc))
}

// The operation takes effect at the version after the top.
fn apply_next(made: &mut Collection, op: Op) -> Result<(), NoMemory> {
    let v = Lsn(made.top().0.saturating_add(1));
    made.apply(v, &op)
}

// What is replied to a question at a version from the floor on.
fn replied(alloc: Global, made: &Collection, v: Lsn, ask: Ask) -> Result<Reply, NoMemory> {
    if v < made.floor() {
        return Ok(Reply::Missing);
    }
    made.read(alloc, v, &ask)
}

fn count_of(reply: Reply) -> u64 {
    match reply {
        Reply::Missing => 0,
        Reply::Value(_) | Reply::Rows(_) => 1,
        Reply::Count(count) => count,
    }
}

fn count(alloc: Global, made: &Collection, v: Lsn, ask: Ask) -> Result<u64, NoMemory> {
    Ok(count_of(replied(alloc, made, v, ask)?))
}

fn undo_to(made: &mut Collection, v: Lsn) {
    if made.floor() <= v {
        made.undo_above(v);
    }
}

fn merge_to(made: &mut Collection, v: Lsn) {
    if made.floor() <= v && v <= made.top() {
        made.merge_below(v);
    }
}

fn turn(alloc: Global, made: &mut Collection, round: u64) -> Result<(), NoMemory> {
    apply_next(made, push(alloc, round)?)?;
    apply_next(made, pop(alloc))
}

fn replace(alloc: Global, made: &mut Collection, key: u64) -> Result<(), NoMemory> {
    apply_next(made, del(alloc, key)?)?;
    apply_next(made, put(alloc, key, key)?)
}

// The key or the place that a round names.
fn named_by(form: Form, round: u64, size: u64) -> u64 {
    match form {
        Form::PutNext | Form::GetNext | Form::ItemNext => round.checked_rem(size).unwrap_or(0),
        _ => place(round, size),
    }
}

// Whether a look finds something.
fn looked(
    alloc: Global,
    made: &Collection,
    form: Form,
    round: u64,
    size: u64,
) -> Result<bool, NoMemory> {
    let found = match form {
        Form::Get | Form::GetNext => {
            let key = bytes(alloc, named_by(form, round, size))?;
            count(alloc, made, made.top(), Ask::Get(key))?
        }
        Form::Item | Form::ItemNext => {
            let there = named_by(form, round, size);
            count(alloc, made, made.top(), Ask::Item(there))?
        }
        _ => count(alloc, made, Lsn(place(round, made.top().0)), Ask::Count)?,
    };
    Ok(found != 0)
}

// Changes the collection.
fn change(
    alloc: Global,
    made: &mut Collection,
    form: Form,
    round: u64,
    size: u64,
) -> Result<(), NoMemory> {
    let key = named_by(form, round, size);
    match form {
        Form::Delete => replace(alloc, made, key),
        Form::Push => apply_next(made, push(alloc, round)?),
        Form::Turn | Form::MergeTurn => turn(alloc, made, round),
        Form::UndoPop => apply_next(made, pop(alloc)),
        _ => apply_next(made, put(alloc, key, round)?),
    }
}

fn is_look(form: Form) -> bool {
    matches!(
        form,
        Form::Get | Form::GetNext | Form::Item | Form::ItemNext | Form::Count
    )
}

// Whether a round finds something. One that changes the collection finds nothing.
fn play_round(
    alloc: Global,
    made: &mut Collection,
    form: Form,
    round: u64,
    size: u64,
) -> Result<bool, NoMemory> {
    if is_look(form) {
        return looked(alloc, made, form, round, size);
    }
    let before = made.top();
    change(alloc, made, form, round, size)?;
    match form {
        Form::UndoPut | Form::UndoPop => undo_to(made, before),
        Form::MergePut | Form::MergeTurn => merge_to(made, before),
        _ => {}
    }
    Ok(false)
}

// A collection of so many items, each at a version of its own, whose keys are put in the order in which rounds name them.
fn made_of(alloc: Global, kind: Kind, form: Form, size: u64) -> Result<Collection, NoMemory> {
    let mut made = Collection::make(alloc, kind);
    for number in 0..size {
        let key = named_by(form, number, size);
        match kind {
            Kind::Dict => apply_next(&mut made, put(alloc, key, number)?)?,
            Kind::Queue => apply_next(&mut made, push(alloc, number)?)?,
        }
    }
    Ok(made)
}

// How many rounds find something.
fn play_rounds(
    alloc: Global,
    made: &mut Collection,
    form: Form,
    size: u64,
    rounds: u64,
) -> Result<u64, NoMemory> {
    let mut found: u64 = 0;
    for round in 0..rounds {
        if play_round(alloc, made, form, round, size)? {
            found = found.saturating_add(1);
        }
    }
    Ok(found)
}

/// Makes a collection of a size, and plays rounds on it.
pub fn play(
    alloc: Global,
    kind: Kind,
    form: Form,
    size: u64,
    rounds: u64,
) -> Result<Played, NoMemory> {
    let mut made = made_of(alloc, kind, form, size)?;
    let found = play_rounds(alloc, &mut made, form, size, rounds)?;
    let at_last = count(alloc, &made, made.top(), Ask::Count)?;
    Ok(Played { found, at_last })
}
