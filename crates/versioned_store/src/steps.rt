ghost use Rattle.std.specs.Prelude.{◌≡◌, ℕ, ◌≤◌, ◌<◌, map, All, IfOk, OnOk, OnErr, IsTrue};
ghost use Rattle.std.specs.List.Sorted.{IsNonDecreasingBy, IsStrictlySortedBy};
ghost use Rattle.std.specs.Ordering.{nat_cmp};
ghost use Rattle.std.specs.Cmp.Lexicographic.{slice_cmp};
ghost use Rattle.std.specs.Map.{keys_of};
ghost use Rattle.std.specs.BTreeMap.{IsOrdered};
ghost use Rattle.versioned_store.specs.Chains.{no_history, with_change, without_newest, with_base};
ghost use Rattle.versioned_store.specs.Stores.{HasChain, history_at, Tells, based};
ghost use Rattle.versioned_store.specs.Loops.{AgreesAt};

use crate::chain::{Chain, Change};
use crate::journal::{JournalEntry, ends_above, starts_within};
use rc_base::{Bytes, Lsn, NoMemory};
use std::alloc::Global;
use std::collections::{BTreeMap, VecDeque};

// One more change of the key.
#[tactic(auto, using(std::proofs::lemmas::Map::Steps::set_value_same))]
pub(crate) fn push_change(
    alloc: Global,
    chains: &mut BTreeMap<Bytes, Chain>,
    key: &Bytes,
    change: Change,
) -> Result<(), NoMemory>
    requires { All (λ earlier. earlier.at.0 ≤ change.at.0) (history_at key.now chains.old.entries).changes }
    ensures ok { OnOk result (HasChain chains.old.entries chains.new.entries key.now (with_change (history_at key.now chains.old.entries) change)) }
    ensures err { OnErr result (chains.new.entries ≡ chains.old.entries) }
    ensures was_ordered { IsOrdered (slice_cmp nat_cmp) chains.old }
    ensures ordered { IsOrdered (slice_cmp nat_cmp) chains.new }
{
    match chains.get_mut(key) {
        Some(chain) => chain.push(change),
        None => insert_chain(alloc, chains, key, change),
    }
}

// The first change of a key that isn't there.
fn insert_chain(
    alloc: Global,
    chains: &mut BTreeMap<Bytes, Chain>,
    key: &Bytes,
    change: Change,
) -> Result<(), NoMemory>
    requires { history_at key.now chains.old.entries ≡ no_history }
    ensures ok { OnOk result (HasChain chains.old.entries chains.new.entries key.now (with_change no_history change)) }
    ensures err { OnErr result (chains.new.entries ≡ chains.old.entries) }
    ensures ordered { IsOrdered (slice_cmp nat_cmp) chains.new }
{
    let _ = chains.len();
    let mut chain = Chain::new(alloc);
    chain.push(change)?;
    chains.insert(key.clone()?, chain)?;
    Ok(())
}

// The newest change of the key goes.
pub(crate) fn drop_newest(chains: &mut BTreeMap<Bytes, Chain>, key: &Bytes)
    ensures chain { HasChain chains.old.entries chains.new.entries key.now (without_newest (history_at key.now chains.old.entries)) }
    ensures was_ordered { IsOrdered (slice_cmp nat_cmp) chains.old }
    ensures ordered { IsOrdered (slice_cmp nat_cmp) chains.new }
{
    if let Some(chain) = chains.get_mut(key) {
        chain.pop();
    }
    drop_empty(chains, key);
}

// The oldest change of the key becomes its value at the floor.
pub(crate) fn merge_oldest(chains: &mut BTreeMap<Bytes, Chain>, key: &Bytes)
    ensures chain { HasChain chains.old.entries chains.new.entries key.now (with_base (history_at key.now chains.old.entries)) }
    ensures was_ordered { IsOrdered (slice_cmp nat_cmp) chains.old }
    ensures ordered { IsOrdered (slice_cmp nat_cmp) chains.new }
{
    if let Some(chain) = chains.get_mut(key) {
        chain.merge();
    }
    drop_empty(chains, key);
}

// A key of which nothing is known goes.
fn drop_empty(chains: &mut BTreeMap<Bytes, Chain>, key: &Bytes)
    ensures chain { HasChain chains.old.entries chains.new.entries key.now (history_at key.now chains.old.entries) }
    ensures was_ordered { IsOrdered (slice_cmp nat_cmp) chains.old }
    ensures ordered { IsOrdered (slice_cmp nat_cmp) chains.new }
{
    if is_empty(chains, key) {
        chains.remove(key);
    }
}

// Whether nothing is known of the key.
fn is_empty(chains: &BTreeMap<Bytes, Chain>, key: &Bytes) -> bool
    ensures empty { IsTrue result → history_at key.now chains.now.entries ≡ no_history }
    ensures ordered { IsOrdered (slice_cmp nat_cmp) chains.now }
{
    let _ = chains.len();
    match chains.get(key) {
        Some(chain) => chain.is_empty(),
        None => false,
    }
}

// What came above the version goes.
pub(crate) fn take_back(
    chains: &mut BTreeMap<Bytes, Chain>,
    journal: &mut VecDeque<JournalEntry>,
    v: Lsn,
)
    requires rises { IsNonDecreasingBy (λ entry. entry.at.0) journal.old.items }
    requires tells { Tells journal.old.items chains.old.entries }
    ensures agrees { (count : ℕ) → AgreesAt (λ w. w ≤ v.0) count chains.old.entries journal.old.items count chains.new.entries journal.new.items }
    ensures within { All (λ entry. entry.at.0 ≤ v.0) journal.new.items }
    ensures was_ordered { IsOrdered (slice_cmp nat_cmp) chains.old }
    ensures ordered { IsOrdered (slice_cmp nat_cmp) chains.new }
{
    let _ = chains.len();
    while ends_above(journal, v) {
        if let Some(last) = journal.pop_back() {
            drop_newest(chains, &last.key);
        }
    }
}

// What came at or below the version goes into the values at the floor. The result is how many pairs there are then at the floor.
pub(crate) fn merge_front(
    chains: &mut BTreeMap<Bytes, Chain>,
    journal: &mut VecDeque<JournalEntry>,
    base_count: u64,
    v: Lsn,
) -> u64
    requires rises { IsNonDecreasingBy (λ entry. entry.at.0) journal.old.items }
    requires tells { Tells journal.old.items chains.old.entries }
    ensures agrees { AgreesAt (λ w. v.0 ≤ w) base_count chains.old.entries journal.old.items result chains.new.entries journal.new.items }
    ensures beyond { All (λ entry. v.0 < entry.at.0) journal.new.items }
    ensures was_ordered { IsOrdered (slice_cmp nat_cmp) chains.old }
    ensures ordered { IsOrdered (slice_cmp nat_cmp) chains.new }
{
    let _ = chains.len();
    let mut count = base_count;
    while starts_within(journal, v) {
        if let Some(first) = journal.pop_front() {
            merge_oldest(chains, &first.key);
            count = first.count;
        }
    }
    count
}

// The chains of these pairs, whose keys rise, as they are at the floor.
pub(crate) fn base_chains(
    alloc: Global,
    pairs: &[(Bytes, Bytes)],
) -> Result<BTreeMap<Bytes, Chain>, NoMemory>
    requires { IsStrictlySortedBy (slice_cmp nat_cmp) (keys_of pairs.now) }
    ensures { IfOk result (λ chains. chains.entries ≡ map based pairs.now) }
{
    let mut chains = BTreeMap::new(alloc);
    for (key, value) in pairs {
        let chain = Chain::of(alloc, value.clone()?);
        chains.insert(key.clone()?, chain)?;
    }
    Ok(chains)
}
