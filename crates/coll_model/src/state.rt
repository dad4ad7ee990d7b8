ghost use Rattle.std.specs.Map.Iter.{ShowsInOrder, deref_pair};
ghost use Rattle.coll_model.specs.declared.contents.Contents.{Contents as ContentsValue};
ghost use Rattle.std.specs.Prelude.{◌≡◌, ℕ, List, ◌↔◌, [], length, IfOk, OnOk, OnErr, IsTrue};
ghost use Rattle.std.specs.Option.{option_copied};
ghost use Rattle.std.specs.Map.{keys_of};
ghost use Rattle.std.specs.List.Sorted.{IsStrictlySortedBy};
ghost use Rattle.std.specs.Ordering.{nat_cmp};
ghost use Rattle.std.specs.Cmp.Lexicographic.{slice_cmp};
ghost use Rattle.coll_model.specs.Rows as seen;
ghost use Rattle.coll_model.specs.Effect.{effect, at_key, put, del, push, pop};

use crate::contents::Contents;
use crate::op::{Kind, Op};
use crate::rows::{Collection, Image};
use rc_base::{Bytes, Name, NoMemory};
use std::alloc::{AllocError, Global};
use std::collections::BTreeMap;
use std::collections::btree_map::Iter;
use std::marker::Model;

/// The collections of a store, by rising name. Contracts see the list of (name, contents).
#[derive(Drop)]
pub struct State {
    collections: BTreeMap<Name, Contents>,
    alloc: Global,
}

impl Model for State {
    ghost use Rattle.std.specs.Prelude.{ℕ, List};
    ghost use Rattle.coll_model.specs.declared.contents.Contents.{Contents};

    ghost Value = { List (List ℕ × Contents) };

    ghost view = { λ s. s.collections.entries };
}

impl State {
    /// No collections. It takes no memory.
    pub fn empty(alloc: Global) -> State
        ensures { result ≡ [] }
    {
        State {
            collections: BTreeMap::new(alloc),
            alloc,
        }
    }

    /// The contents of the collection of a name.
    pub fn get(&self, name: &Name) -> Option<&Contents>
        ensures { option_copied result ≡ at_key name.now self.now }
    {
        self.collections.get(name)
    }

    /// How many collections there are. Their names rise.
    pub fn len(&self) -> usize
        ensures value { result ≡ length self.now }
        ensures rising { IsStrictlySortedBy (slice_cmp nat_cmp) (keys_of self.now) }
    {
        self.collections.len()
    }

    /// The collections, by rising name.
    pub fn iter(&self) -> Iter<'_, Name, Contents>
        ensures rest { result ≡ self.now }
        ensures runs { ShowsInOrder (deref_pair {K = List ℕ} {X = ContentsValue}) }
    {
        self.collections.iter()
    }

    /// Copies of the collections, by rising name.
    ///
    /// # Errors
    /// `NoMemory` where it is out of memory.
    pub fn image(&self) -> Result<Image, NoMemory>
        ensures { IfOk result (λ image. image ≡ seen.image self.now) }
    {
        let mut image = Image::new(self.alloc);
        for (name, contents) in self.iter() {
            image.push(collection(self.alloc, name, contents)?)?;
        }
        Ok(image)
    }

    pub fn is_empty(&self) -> bool
        ensures { IsTrue result ↔ (self.now ≡ []) }
    {
        self.collections.is_empty()
    }

    /// The operation takes effect.
    ///
    /// # Errors
    /// `NoMemory`, and then the state is as before.
    #[tactic(auto, using(std::proofs::lemmas::Map::Steps::set_value_same))]
    pub fn apply(&mut self, op: &Op) -> Result<(), NoMemory>
        ensures ok { OnOk result (self.new ≡ effect self.old op.now) }
        ensures err { OnErr result (self.new ≡ self.old) }
    {
        match op {
            Op::Make(name, kind) => self.make(name, *kind),
            Op::Unmake(name) => {
                self.collections.remove(name);
                Ok(())
            }
            Op::Put(name, key, value) => match self.collections.get_mut(name) {
                Some(contents) => contents.put(key, value),
                None => Ok(()),
            },
            Op::Del(name, key) => {
                if let Some(contents) = self.collections.get_mut(name) {
                    contents.del(key);
                }
                Ok(())
            }
            Op::Push(name, value) => match self.collections.get_mut(name) {
                Some(contents) => contents.push(value),
                None => Ok(()),
            },
            Op::Pop(name) => {
                if let Some(contents) = self.collections.get_mut(name) {
                    contents.pop();
                }
                Ok(())
            }
        }
    }

    // A new collection, where the name is absent.
    fn make(&mut self, name: &Name, kind: Kind) -> Result<(), NoMemory>
        ensures ok { OnOk result (self.new ≡ effect self.old (Op.Make name.now kind)) }
        ensures err { OnErr result (self.new ≡ self.old) }
    {
        if self.collections.get(name).is_none() {
            self.collections
                .insert(name.clone()?, Contents::new(self.alloc, kind))?;
        }
        Ok(())
    }
}

// A copy of a collection.
fn collection(alloc: Global, name: &Name, contents: &Contents) -> Result<Collection, NoMemory>
    ensures { IfOk result (λ one. one ≡ seen.collection_of (name.now, contents.now)) }
{
    Ok(Collection {
        name: name.clone()?,
        kind: contents.kind(),
        rows: contents.rows(alloc)?,
    })
}

impl Clone for State {
    ghost is_clone = { λ x y. y ≡ x };

    #[tactic(auto, using(std::proofs::lemmas::Map::Entries::entries_from_clone))]
    fn clone(&self) -> Result<State, AllocError> {
        Ok(State {
            collections: self.collections.clone()?,
            alloc: self.alloc,
        })
    }
}
