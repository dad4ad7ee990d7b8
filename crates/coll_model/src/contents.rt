ghost use Rattle.std.specs.Map.Iter.{ShowsInOrder, deref_pair};
ghost use Rattle.std.specs.Prelude.{◌≡◌, ℕ, List, ◌↔◌, [], ◌∷◌, ◌++◌, length, drop, IfOk, OnOk, OnErr, IsTrue, slice_get};
ghost use Rattle.std.specs.Option.{option_copied};
ghost use Rattle.coll_model.specs.Rows.{rows_of, kind_of_rows};
ghost use Rattle.coll_model.specs.Effect.{kind_of, fresh, at_key, with_key, without_key, put, del, push, pop};

use crate::op::Kind;
use crate::rows::Rows;
use rc_base::{Bytes, NoMemory, Seq};
use std::alloc::{AllocError, Global};
use std::collections::btree_map::Iter;
use std::collections::{BTreeMap, VecDeque};
use std::marker::Model;

/// The pairs of a dictionary, by rising key. Contracts see the list of (key, value).
#[derive(Drop)]
pub struct Pairs {
    pairs: BTreeMap<Bytes, Bytes>,
}

impl Model for Pairs {
    ghost use Rattle.std.specs.Prelude.{ℕ, List};

    ghost Value = { List (List ℕ × List ℕ) };

    ghost view = { λ p. p.pairs.entries };
}

impl Pairs {
    /// No pairs. It takes no memory.
    pub fn new(alloc: Global) -> Pairs
        ensures { result ≡ [] }
    {
        Pairs {
            pairs: BTreeMap::new(alloc),
        }
    }

    /// The value of the key.
    pub fn get(&self, key: &Bytes) -> Option<&Bytes>
        ensures { option_copied result ≡ at_key key.now self.now }
    {
        self.pairs.get(key)
    }

    /// How many they are.
    pub fn len(&self) -> usize
        ensures { result ≡ length self.now }
    {
        self.pairs.len()
    }

    pub fn is_empty(&self) -> bool
        ensures { IsTrue result ↔ (self.now ≡ []) }
    {
        self.pairs.is_empty()
    }

    /// The pairs, by rising key.
    pub fn iter(&self) -> Iter<'_, Bytes, Bytes>
        ensures rest { result ≡ self.now }
        ensures runs { ShowsInOrder (deref_pair {K = List ℕ} {X = List ℕ}) }
    {
        self.pairs.iter()
    }

    // Copies of the pairs, by rising key.
    pub(crate) fn listed(&self, alloc: Global) -> Result<Seq<(Bytes, Bytes)>, NoMemory>
        ensures { IfOk result (λ pairs. pairs ≡ self.now) }
    {
        let mut pairs = Seq::new(alloc);
        for (key, value) in self.iter() {
            pairs.push((key.clone()?, value.clone()?))?;
        }
        Ok(pairs)
    }

    /// The key has the value.
    ///
    /// # Errors
    /// `NoMemory`, and then the pairs are as before.
    pub fn put(&mut self, key: &Bytes, value: &Bytes) -> Result<(), NoMemory>
        ensures ok { OnOk result (self.new ≡ with_key key.now value.now self.old) }
        ensures err { OnErr result (self.new ≡ self.old) }
    {
        self.pairs.insert(key.clone()?, value.clone()?)?;
        Ok(())
    }

    /// The key goes. It takes no memory.
    pub fn del(&mut self, key: &Bytes)
        ensures { self.new ≡ without_key key.now self.old }
    {
        self.pairs.remove(key);
    }
}

impl Clone for Pairs {
    ghost is_clone = { λ x y. y ≡ x };

    #[tactic(auto, using(std::proofs::lemmas::Map::Entries::entries_from_clone))]
    fn clone(&self) -> Result<Pairs, AllocError> {
        Ok(Pairs {
            pairs: self.pairs.clone()?,
        })
    }
}

/// The values of a queue, from head to tail. Contracts see the list of them.
#[derive(Drop)]
pub struct Values {
    values: VecDeque<Bytes>,
}

impl Model for Values {
    ghost use Rattle.std.specs.Prelude.{ℕ, List};

    ghost Value = { List (List ℕ) };

    ghost view = { λ v. v.values.items };
}

impl Values {
    /// No values. It takes no memory.
    pub fn new(alloc: Global) -> Values
        ensures { result ≡ [] }
    {
        Values {
            values: VecDeque::new(alloc),
        }
    }

    /// The value at a place, counted from 0 at the head.
    pub fn get(&self, place: usize) -> Option<&Bytes>
        ensures { option_copied result ≡ slice_get self.now place }
    {
        self.values.get(place)
    }

    /// How many they are.
    pub fn len(&self) -> usize
        ensures { result ≡ length self.now }
    {
        self.values.len()
    }

    pub fn is_empty(&self) -> bool
        ensures { IsTrue result ↔ (self.now ≡ []) }
    {
        self.values.is_empty()
    }

    // Copies of the values, from head to tail.
    pub(crate) fn listed(&self) -> Result<Seq<Bytes>, NoMemory>
        ensures { IfOk result (λ values. values ≡ self.now) }
    {
        Ok(Seq::from_vec(self.values.clone()?.into_vec()))
    }

    /// The value comes after the tail.
    ///
    /// # Errors
    /// `NoMemory`, and then the values are as before.
    pub fn push(&mut self, value: &Bytes) -> Result<(), NoMemory>
        ensures ok { OnOk result (self.new ≡ self.old ++ value.now ∷ []) }
        ensures err { OnErr result (self.new ≡ self.old) }
    {
        self.values.push_back(value.clone()?)?;
        Ok(())
    }

    /// The head goes, where there is one. It takes no memory.
    pub fn pop(&mut self)
        ensures { self.new ≡ drop 1 self.old }
    {
        self.values.pop_front();
    }
}

impl Clone for Values {
    ghost is_clone = { λ x y. y ≡ x };

    fn clone(&self) -> Result<Values, AllocError> {
        Ok(Values {
            values: self.values.clone()?,
        })
    }
}

/// What is in a collection.
#[derive(Drop)]
pub enum Contents {
    /// A dictionary's pairs, by rising key.
    Dict(Pairs),
    /// A queue's values, from head to tail.
    Queue(Values),
}

impl Contents {
    /// A new collection of the kind, with nothing in it. It takes no memory.
    pub fn new(alloc: Global, kind: Kind) -> Contents
        ensures { result ≡ fresh kind }
    {
        match kind {
            Kind::Dict => Contents::Dict(Pairs::new(alloc)),
            Kind::Queue => Contents::Queue(Values::new(alloc)),
        }
    }

    /// What the collection is.
    pub fn kind(&self) -> Kind
        ensures { result ≡ kind_of self.now }
    {
        match self {
            Contents::Dict(_) => Kind::Dict,
            Contents::Queue(_) => Kind::Queue,
        }
    }

    /// Copies of its items.
    ///
    /// # Errors
    /// `NoMemory` where it is out of memory.
    pub fn rows(&self, alloc: Global) -> Result<Rows, NoMemory>
        ensures rows { IfOk result (λ rows. rows ≡ rows_of self.now) }
        ensures kind { IfOk result (λ rows. kind_of_rows rows ≡ kind_of self.now) }
    {
        Ok(match self {
            Contents::Dict(pairs) => Rows::Pairs(pairs.listed(alloc)?),
            Contents::Queue(values) => Rows::Values(values.listed()?),
        })
    }

    // The key of a dictionary has the value. A queue stays.
    pub(crate) fn put(&mut self, key: &Bytes, value: &Bytes) -> Result<(), NoMemory>
        ensures ok { OnOk result (self.new ≡ put key.now value.now self.old) }
        ensures err { OnErr result (self.new ≡ self.old) }
    {
        match self {
            Contents::Dict(pairs) => pairs.put(key, value),
            Contents::Queue(_) => Ok(()),
        }
    }

    // The key of a dictionary goes. A queue stays.
    pub(crate) fn del(&mut self, key: &Bytes)
        ensures { self.new ≡ del key.now self.old }
    {
        if let Contents::Dict(pairs) = self {
            pairs.del(key);
        }
    }

    // The value comes after a queue's tail. A dictionary stays.
    pub(crate) fn push(&mut self, value: &Bytes) -> Result<(), NoMemory>
        ensures ok { OnOk result (self.new ≡ push value.now self.old) }
        ensures err { OnErr result (self.new ≡ self.old) }
    {
        match self {
            Contents::Queue(values) => values.push(value),
            Contents::Dict(_) => Ok(()),
        }
    }

    // The head of a queue goes. A dictionary stays.
    pub(crate) fn pop(&mut self)
        ensures { self.new ≡ pop self.old }
    {
        if let Contents::Queue(values) = self {
            values.pop();
        }
    }
}

impl Clone for Contents {
    ghost is_clone = { λ x y. y ≡ x };

    fn clone(&self) -> Result<Contents, AllocError> {
        Ok(match self {
            Contents::Dict(pairs) => Contents::Dict(pairs.clone()?),
            Contents::Queue(values) => Contents::Queue(values.clone()?),
        })
    }
}
