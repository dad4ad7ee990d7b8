ghost use Rattle.std.specs.Prelude.{◌≡◌, [], ◌∷◌, ◌++◌, IfOk, OnOk, OnErr, option_and_then};
ghost use Rattle.std.specs.Option.{option_copied};
ghost use Rattle.lock_laws.specs.OwnOperations as own;
ghost use Rattle.txn_front.specs.Index as index;
ghost use Rattle.txn_front.specs.Index.{noted};

use coll_model::{Op, Ops};
use events::Reply;
use indexmap::IndexMap;
use key_locks::LockName;
use rc_base::{Lsn, NoMemory};
use std::alloc::Global;
use std::cmp::max;
use std::marker::Model;

/// A transaction that goes on. Contracts see the position of its last record, and its operations in order.
#[derive(Drop)]
pub struct Going {
    last: Lsn,
    ops: Ops,
    // For each item the place of the newest operation on it itself.
    places: IndexMap<LockName, usize>,
}

impl Model for Going {
    ghost use Rattle.txn_front.specs.Front.{Going as Done};
    ghost use Rattle.txn_front.specs.Index.{IsIndex};

    ghost Value = { Done };

    ghost view = { λ g. record { last = g.last; ops = g.ops } };

    ghost invariant = { λ g. IsIndex g.ops g.places.entries };
}

impl Going {
    // Nothing is logged, and nothing is done. It takes no memory.
    pub(crate) fn new(alloc: Global) -> Going
        ensures { result ≡ record { last = record { 0 = 0 }; ops = [] } }
    {
        Going {
            last: Lsn(0),
            ops: Ops::new(alloc),
            places: IndexMap::new(alloc),
        }
    }

    /// The position of its last record in the log, 0 where it has none.
    pub fn last(&self) -> Lsn
        ensures { result ≡ self.now.last }
    {
        self.last
    }

    /// What it has done, in order.
    pub fn ops(&self) -> &Ops
        ensures { result.now ≡ self.now.ops }
    {
        &self.ops
    }

    // The newest of its operations that decide the item, which is in the collection of this name.
    pub(crate) fn newest(&self, item: &LockName, name: &LockName) -> Option<&Op>
        requires { name.now ≡ own.name_in item.now }
        ensures { option_copied result ≡ own.newest item.now self.now.ops }
    {
        let place = later_place(self.places.get(item), self.places.get(name))?;
        self.ops.as_slice().get(place)
    }

    // Its last record stands at this position.
    pub(crate) fn set_last(&mut self, last: Lsn)
        ensures { self.new ≡ record self.old { last = last } }
    {
        self.last = last;
    }

    // It has done one operation more.
    pub(crate) fn push(&mut self, op: Op) -> Result<(), NoMemory>
        ensures ok { OnOk result (self.new ≡ record self.old { ops = self.old.ops ++ op ∷ [] }) }
        ensures err { OnErr result (self.new ≡ self.old) }
    {
        let item = item_of(&op)?;
        let place = self.ops.len();
        self.places.reserve(1)?;
        self.ops.push(op)?;
        self.places.insert(item, place)?;
        Ok(())
    }

    // It has done what was answered.
    pub(crate) fn note(&mut self, reply: &Option<Reply>) -> Result<(), NoMemory>
        ensures ok { OnOk result (self.new ≡ noted self.old (option_and_then (λ answered. answered.op) reply.now)) }
    {
        match reply {
            Some(Reply { op: Some(op), .. }) => self.push(op.clone()?),
            _ => Ok(()),
        }
    }

    // What it has done, given back.
    pub(crate) fn into_ops(self) -> Ops
        ensures { result ≡ self.ops }
    {
        let Going { ops, .. } = self;
        ops
    }
}

// The later of two places, where there is one.
fn later_place(one: Option<&usize>, other: Option<&usize>) -> Option<usize>
    ensures { result ≡ index.later_place (option_copied one.entry) (option_copied other.entry) }
{
    match (one, other) {
        (Some(a), Some(b)) => Some(max(*a, *b)),
        (Some(a), None) => Some(*a),
        (None, _) => other.copied(),
    }
}

// What the operation changes, as the name of its lock.
fn item_of(op: &Op) -> Result<LockName, NoMemory>
    ensures { IfOk result (λ item. item ≡ own.item_of op.now) }
{
    Ok(match op {
        Op::Make(name, _) | Op::Unmake(name) => LockName::Name(name.clone()?),
        Op::Put(name, key, _) | Op::Del(name, key) => LockName::Key(name.clone()?, key.clone()?),
        Op::Push(name, _) => LockName::Tail(name.clone()?),
        Op::Pop(name) => LockName::Head(name.clone()?),
    })
}
