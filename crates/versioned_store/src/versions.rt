ghost use Rattle.std.specs.Prelude.{◌≡◌, ℕ, ◌<◌, ◌≤◌, [], min, max, length, All, if◌then◌else◌, OnOk, OnErr, IfOk};
ghost use Rattle.std.specs.Option.{option_copied};
ghost use Rattle.std.specs.Ordering.{nat_cmp};
ghost use Rattle.std.specs.Cmp.Lexicographic.{slice_cmp};
ghost use Rattle.std.specs.List.Sorted.{IsStrictlySortedBy};
ghost use Rattle.std.specs.Map.{keys_of};
ghost use Rattle.std.proofs.Props.{props};
ghost use Rattle.coll_model.specs.Effect.{at_key};
ghost use Rattle.coll_model.specs.declared.rows.Rows.TheVariants as rows;
ghost use Rattle.versioned_store.specs.Stores.{IsStore, pairs_at, changed};

use crate::chain::{Chain, Change};
use crate::journal::{JournalEntry, count_to};
use crate::steps::{base_chains, merge_front, push_change, take_back};
use coll_model::Rows;
use rc_base::{Bytes, Lsn, NoMemory, Seq};
use std::alloc::Global;
use std::collections::{BTreeMap, VecDeque};

/// The pairs of a dictionary at each version from a floor on. For each key it keeps a chain of its values, and beside them a
/// journal of all changes, each with how many pairs there were after it.
///
/// What is above its top looks as at the top.
#[derive(Drop)]
pub struct Versions {
    chains: BTreeMap<Bytes, Chain>,
    journal: VecDeque<JournalEntry>,
    base_count: u64,
    floor: Lsn,
    top: Lsn,
    alloc: Global,
    pub ghost sound: { IsStore (record { chains = chains.entries; journal = journal.items; base_count = base_count; floor = floor; top = top }) } by { Prim.hlevel props },
}

impl Versions {
    ghost use Rattle.versioned_store.specs.SeenBy.{pairs};

    /// Nothing is there; floor and top are 0. It takes no memory.
    pub fn new(alloc: Global) -> Versions
        ensures floor { result.floor.0 ≡ 0 }
        ensures top { result.top.0 ≡ 0 }
        ensures pairs { (w : ℕ) → pairs result w ≡ [] }
    {
        Versions {
            chains: BTreeMap::new(alloc),
            journal: VecDeque::new(alloc),
            base_count: 0,
            floor: Lsn(0),
            top: Lsn(0),
            alloc,
        }
    }

    /// These pairs, whose keys rise, at the version, which is floor and top.
    ///
    /// # Errors
    /// `NoMemory` where it is out of memory.
    pub fn of_pairs(alloc: Global, v: Lsn, from: &[(Bytes, Bytes)]) -> Result<Versions, NoMemory>
        requires { IsStrictlySortedBy (slice_cmp nat_cmp) (keys_of from.now) }
        ensures floor { IfOk result (λ made. made.floor ≡ v) }
        ensures top { IfOk result (λ made. made.top ≡ v) }
        ensures pairs { IfOk result (λ made. (w : ℕ) → pairs made w ≡ from.now) }
    {
        Ok(Versions {
            chains: base_chains(alloc, from)?,
            journal: VecDeque::new(alloc),
            base_count: from.len() as u64,
            floor: v,
            top: v,
            alloc,
        })
    }

    /// The last version merged to.
    pub fn floor(&self) -> Lsn
        ensures { result ≡ self.now.floor }
    {
        self.floor
    }

    /// The greatest version of a put.
    pub fn top(&self) -> Lsn
        ensures { result ≡ self.now.top }
    {
        self.top
    }

    /// The value of the key at a version: that of its last put at or below it.
    pub fn get_at(&self, v: Lsn, key: &Bytes) -> Option<&Bytes>
        ensures { option_copied result ≡ at_key key.now (pairs self.now v.0) }
    {
        let _ = self.chains.len();
        match self.chains.get(key) {
            Some(chain) => chain.value_at(v),
            None => None,
        }
    }

    /// How many pairs there are at a version.
    pub fn count_at(&self, v: Lsn) -> u64
        requires { self.now.floor.0 ≤ v.0 }
        ensures { result ≡ length (pairs self.now v.0) }
    {
        count_to(&self.journal, self.base_count, v)
    }

    /// The pairs at a version, by rising key.
    ///
    /// # Errors
    /// `NoMemory` where it is out of memory.
    pub fn rows_at(&self, v: Lsn) -> Result<Rows, NoMemory>
        ensures { IfOk result (λ listed. listed ≡ rows.Pairs (pairs self.now v.0)) }
    {
        let mut listed = Seq::new(self.alloc);
        for (key, chain) in self.chains.iter() {
            if let Some(value) = chain.value_at(v) {
                listed.push((key.clone()?, value.clone()?))?;
            }
        }
        Ok(Rows::Pairs(listed))
    }

    /// From the version on the key has the value, or is absent. The version isn't below the top, which it becomes.
    ///
    /// # Errors
    /// `NoMemory`, and then all is as before.
    pub fn put_at(&mut self, v: Lsn, key: &Bytes, value: Option<&Bytes>) -> Result<(), NoMemory>
        requires { self.old.top.0 ≤ v.0 }
        ensures floor { self.new.floor ≡ self.old.floor }
        ensures top { OnOk result (self.new.top ≡ v) }
        ensures below { OnOk result ((w : ℕ) → w < v.0 → pairs self.new w ≡ pairs self.old w) }
        ensures from { OnOk result ((w : ℕ) → v.0 ≤ w → pairs self.new w ≡ changed key.now (option_copied value.entry) (pairs self.old self.old.top.0)) }
        ensures same_top { OnErr result (self.new.top ≡ self.old.top) }
        ensures same_pairs { OnErr result ((w : ℕ) → pairs self.new w ≡ pairs self.old w) }
    {
        let count = self.count_after(key, value);
        let entry = JournalEntry {
            at: v,
            key: key.clone()?,
            count,
        };
        let change = Change {
            at: v,
            value: copy_of(value)?,
        };
        self.journal.reserve(1)?;
        push_change(self.alloc, &mut self.chains, key, change)?;
        self.journal.push_back_reserved(entry);
        self.top = v;
        Ok(())
    }

    /// Nothing changes but the top, to a version that isn't below it. It takes no memory.
    pub fn rest(&mut self, v: Lsn)
        requires { self.old.top.0 ≤ v.0 }
        ensures floor { self.new.floor ≡ self.old.floor }
        ensures top { self.new.top ≡ v }
        ensures pairs { (w : ℕ) → pairs self.new w ≡ pairs self.old w }
    {
        self.top = v;
    }

    // How many pairs there are after a put above the top.
    fn count_after(&self, key: &Bytes, value: Option<&Bytes>) -> u64
        ensures { result ≡ length (changed key.now (option_copied value.entry) (pairs self.now self.now.top.0)) }
    {
        let _ = self.chains.len();
        let count = self.count_at(self.top);
        let had = self.get_at(self.top, key).is_some();
        match value {
            Some(_) => if had { count } else { count + 1 },
            None => if had { count - 1 } else { count },
        }
    }

    /// The puts above a version go, which isn't below the floor. It takes no memory.
    pub fn cut_above(&mut self, v: Lsn)
        requires { self.old.floor.0 ≤ v.0 }
        ensures floor { self.new.floor ≡ self.old.floor }
        ensures top { self.new.top.0 ≡ min self.old.top.0 v.0 }
        ensures pairs { (w : ℕ) → pairs self.new w ≡ pairs self.old (min w v.0) }
    {
        take_back(&mut self.chains, &mut self.journal, v);
        if v < self.top {
            self.top = v;
        }
    }

    /// A version from the floor on becomes the floor: what is below can't be looked at any more. It takes no memory.
    pub fn merge(&mut self, v: Lsn)
        requires { self.old.floor.0 ≤ v.0 }
        ensures floor { self.new.floor ≡ v }
        ensures top { self.new.top.0 ≡ max self.old.top.0 v.0 }
        ensures pairs { (w : ℕ) → v.0 ≤ w → pairs self.new w ≡ pairs self.old w }
        // No change at or below it is kept.
        ensures forgets { All (λ entry. v.0 < entry.at.0) self.new.journal.items }
    {
        self.base_count = merge_front(&mut self.chains, &mut self.journal, self.base_count, v);
        self.floor = v;
        if self.top < v {
            self.top = v;
        }
    }
}

// A copy of the value, where there is one.
fn copy_of(value: Option<&Bytes>) -> Result<Option<Bytes>, NoMemory>
    ensures { IfOk result (λ copy. copy ≡ option_copied value.entry) }
{
    match value {
        Some(value) => Ok(Some(value.clone()?)),
        None => Ok(None),
    }
}
