ghost use Rattle.std.specs.Prelude.{◌≡◌, ℕ, ◌<◌, ◌≤◌, ◌++◌, ◌∷◌, [], List, length, true, false, All, nat_le};
ghost use Rattle.std.specs.List.Sorted.{IsNonDecreasingBy};
ghost use Rattle.versioned_store.specs.declared.journal.JournalEntry.{JournalEntry as Entry};
ghost use Rattle.versioned_store.specs.Stores.{count_at};

use rc_base::{Bytes, Lsn};
use std::collections::VecDeque;

/// A key changed at a version, and so many pairs there were after it.
#[derive(Drop)]
pub struct JournalEntry {
    pub at: Lsn,
    pub key: Bytes,
    pub count: u64,
}

// Whether the last change came above the version.
pub(crate) fn ends_above(journal: &VecDeque<JournalEntry>, v: Lsn) -> bool
    requires { IsNonDecreasingBy (λ entry. entry.at.0) journal.now.items }
    ensures some { result ≡ true → 0 < length journal.now.items }
    ensures above { result ≡ true → (front : List Entry) (last : Entry) → journal.now.items ≡ front ++ last ∷ [] → v.0 < last.at.0 }
    ensures within { result ≡ false → All (λ entry. entry.at.0 ≤ v.0) journal.now.items }
{
    match journal.back() {
        Some(last) => last.at > v,
        None => false,
    }
}

// Whether the first change came at or below the version.
pub(crate) fn starts_within(journal: &VecDeque<JournalEntry>, v: Lsn) -> bool
    requires { IsNonDecreasingBy (λ entry. entry.at.0) journal.now.items }
    ensures some { result ≡ true → 0 < length journal.now.items }
    ensures within { result ≡ true → (first : Entry) (rest : List Entry) → journal.now.items ≡ first ∷ rest → first.at.0 ≤ v.0 }
    ensures beyond { result ≡ false → All (λ entry. v.0 < entry.at.0) journal.now.items }
{
    match journal.front() {
        Some(first) => first.at <= v,
        None => false,
    }
}

// How many pairs there are after the last change at or below the version; so many before the first change.
pub(crate) fn count_to(journal: &VecDeque<JournalEntry>, before: u64, v: Lsn) -> u64
    requires { IsNonDecreasingBy (λ entry. entry.at.0) journal.now.items }
    ensures { result ≡ count_at before journal.now.items v.0 }
{
    let count = journal.partition_point(
        |entry: &JournalEntry| -> bool
            ensures { result ≡ nat_le entry.now.at.0 v.0 }
        { entry.at.0 <= v.0 },
    );
    if count == 0 {
        before
    } else {
        journal[count - 1].count
    }
}
