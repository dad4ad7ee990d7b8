use coll_model::{Kind, Rows};
use provider_law::{LoadError, StateProvider};
use rc_base::{Bytes, Lsn, NoMemory, Seq};
use rc_collections::Collection;
use std::alloc::Global;
use std::test::*;

// Of what kind the rows are, their keys or values, the kind of the collection that they are loaded as, and why it isn't made.
type Load = (Kind, &'static [&'static str], Kind, Option<LoadError>);

const LOADS: [Load; 11] = [
    (Kind::Dict, &[], Kind::Dict, None),
    (Kind::Dict, &["a"], Kind::Dict, None),
    (Kind::Dict, &["a", "aa", "b"], Kind::Dict, None),
    (Kind::Dict, &["b", "a"], Kind::Dict, Some(LoadError::Bad)),
    (Kind::Dict, &["a", "a"], Kind::Dict, Some(LoadError::Bad)),
    (
        Kind::Dict,
        &["a", "c", "b"],
        Kind::Dict,
        Some(LoadError::Bad),
    ),
    (Kind::Dict, &[], Kind::Queue, Some(LoadError::Bad)),
    (Kind::Dict, &["a"], Kind::Queue, Some(LoadError::Bad)),
    (Kind::Queue, &[], Kind::Queue, None),
    (Kind::Queue, &["b", "a", "a"], Kind::Queue, None),
    (Kind::Queue, &[], Kind::Dict, Some(LoadError::Bad)),
];

fn pairs_of(alloc: Global, keys: &[&str]) -> Result<Rows, NoMemory> {
    let mut pairs = Seq::new(alloc);
    for key in keys {
        pairs.push((Bytes::from_slice(alloc, key.as_bytes())?, Bytes::new(alloc)))?;
    }
    Ok(Rows::Pairs(pairs))
}

fn values_of(alloc: Global, values: &[&str]) -> Result<Rows, NoMemory> {
    let mut rows = Seq::new(alloc);
    for value in values {
        rows.push(Bytes::from_slice(alloc, value.as_bytes())?)?;
    }
    Ok(Rows::Values(rows))
}

fn rows_of(alloc: Global, kind: Kind, words: &[&str]) -> Result<Rows, NoMemory> {
    match kind {
        Kind::Dict => pairs_of(alloc, words),
        Kind::Queue => values_of(alloc, words),
    }
}

// Why no collection is made of the rows.
fn refusal(alloc: Global, kind: Kind, rows: &Rows) -> Option<LoadError> {
    match Collection::load(alloc, kind, Lsn(1), rows) {
        Ok(_) => None,
        Err(error) => Some(error),
    }
}

fn is_as_wanted(alloc: Global, load: &Load) -> Result<bool, NoMemory> {
    let (rows_kind, words, kind, wanted) = *load;
    let rows = rows_of(alloc, rows_kind, words)?;
    Ok(refusal(alloc, kind, &rows) == wanted)
}

// The first line of the table that comes out otherwise.
fn first_wrong(alloc: Global, loads: &[Load]) -> Result<Option<usize>, NoMemory> {
    for (place, load) in loads.iter().enumerate() {
        if !is_as_wanted(alloc, load)? {
            return Ok(Some(place));
        }
    }
    Ok(None)
}

#[test]
fn loads_rows_of_the_kind_with_rising_keys_alone(rt: HostRuntime) -> Result<(), Fail> {
    assert_eq!(rt; first_wrong(rt.alloc(), &LOADS)?, None);
    Ok(())
}
