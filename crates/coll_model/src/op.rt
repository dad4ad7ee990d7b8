ghost use Rattle.std.specs.Prelude.{◌≡◌};
ghost use Rattle.coll_model.specs.Rows.{kind_word};

use rc_base::{Bytes, Name, Seq};
use std::alloc::AllocError;

/// What a collection is.
#[derive(Clone, Copy, Debug, PartialEq, Eq)]
pub enum Kind {
    /// A dictionary from keys to values.
    Dict,
    /// A queue of values, from head to tail.
    Queue,
}

impl Kind {
    /// What a script and a transcript call it.
    pub fn word(self) -> &'static str
        ensures { result.now ≡ kind_word self }
    {
        match self {
            Kind::Dict => "dict",
            Kind::Queue => "queue",
        }
    }
}

/// An operation on the collections. It is total: one that finds no collection of its name and kind changes nothing.
#[derive(Debug, Drop, PartialEq, Eq)]
pub enum Op {
    /// A new, empty collection of the kind, where the name is absent.
    Make(Name, Kind),
    /// The collection goes.
    Unmake(Name),
    /// The key of the dictionary has the value.
    Put(Name, Bytes, Bytes),
    /// The key of the dictionary goes.
    Del(Name, Bytes),
    /// The value comes after the queue's tail.
    Push(Name, Bytes),
    /// The queue's head goes, where it has one.
    Pop(Name),
}

/// Operations in order.
pub type Ops = Seq<Op>;

impl Clone for Op {
    ghost is_clone = { λ x y. y ≡ x };

    fn clone(&self) -> Result<Op, AllocError> {
        Ok(match self {
            Op::Make(name, kind) => Op::Make(name.clone()?, *kind),
            Op::Unmake(name) => Op::Unmake(name.clone()?),
            Op::Put(name, key, value) => Op::Put(name.clone()?, key.clone()?, value.clone()?),
            Op::Del(name, key) => Op::Del(name.clone()?, key.clone()?),
            Op::Push(name, value) => Op::Push(name.clone()?, value.clone()?),
            Op::Pop(name) => Op::Pop(name.clone()?),
        })
    }
}
