ghost use Rattle.std.specs.Prelude.{◌≡◌, ◌++◌, ◌∷◌, IfOk};
ghost use Rattle.coll_model.specs.Rows as seen;

use crate::op::Kind;
use rc_base::{Bytes, Name, NoMemory, Seq};
use std::alloc::Global;

/// Words in order.
pub type Words = Seq<Bytes>;

/// Names in order.
pub type Names = Seq<Name>;

/// The items of a collection at some moment.
#[derive(Drop)]
pub enum Rows {
    /// A dictionary's pairs of a key and its value, by rising key.
    Pairs(Seq<(Bytes, Bytes)>),
    /// A queue's values, from head to tail.
    Values(Seq<Bytes>),
}

impl Rows {
    /// What has such items.
    pub fn kind(&self) -> Kind
        ensures { result ≡ seen.kind_of_rows self.now }
    {
        match self {
            Rows::Pairs(_) => Kind::Dict,
            Rows::Values(_) => Kind::Queue,
        }
    }
}

/// A collection at some moment.
#[derive(Drop)]
pub struct Collection {
    pub name: Name,
    pub kind: Kind,
    pub rows: Rows,
}

/// The collections of a store at some moment, by rising name.
pub type Image = Seq<Collection>;

/// The items of a collection of the kind as a transcript prints them, one word each: a pair as `key=value`, a value as
/// itself.
///
/// # Errors
/// `NoMemory` where it is out of memory.
pub fn row_words(alloc: Global, kind: Kind, rows: &Rows) -> Result<Words, NoMemory>
    requires { seen.kind_of_rows rows.now ≡ kind }
    ensures { IfOk result (λ words. words ≡ seen.row_words rows.now) }
{
    match (kind, rows) {
        (Kind::Dict, Rows::Pairs(pairs)) => pair_words(alloc, pairs.as_slice()),
        (Kind::Queue, Rows::Values(values)) => Ok(values.clone()?),
        _ => unreachable!(),
    }
}

fn pair_words(alloc: Global, pairs: &[(Bytes, Bytes)]) -> Result<Words, NoMemory>
    ensures { IfOk result (λ words. words ≡ seen.pair_words pairs.now) }
{
    let mut words = Words::new(alloc);
    for (key, value) in pairs {
        words.push(pair_word(alloc, key, value)?)?;
    }
    Ok(words)
}

fn pair_word(alloc: Global, key: &Bytes, value: &Bytes) -> Result<Bytes, NoMemory>
    ensures { IfOk result (λ word. word ≡ key.now ++ 61 ∷ value.now) }
{
    let mut word = Vec::from_slice(alloc, key.as_slice())?;
    word.push(b'=')?;
    word.extend_from_slice(value.as_slice())?;
    Ok(Bytes::from_vec(word))
}
