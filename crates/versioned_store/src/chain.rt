ghost use Rattle.std.specs.Prelude.{◌≡◌, ◌≤◌, [], All, nat_le, OnOk, OnErr, IsTrue, ◌↔◌};
ghost use Rattle.std.specs.Option.{option_copied};
ghost use Rattle.versioned_store.specs.Chains.{no_history, with_change, without_newest, with_base, value_in};

use rc_base::{Bytes, Lsn, NoMemory};
use std::alloc::Global;
use std::collections::VecDeque;
use std::marker::Model;

/// From a version on a key has a value, or is absent.
#[derive(Drop)]
pub struct Change {
    pub at: Lsn,
    pub value: Option<Bytes>,
}

/// The values of one key: the one at the floor, and its changes after it, by rising version.
#[derive(Drop)]
pub struct Chain {
    base: Option<Bytes>,
    changes: VecDeque<Change>,
}

impl Model for Chain {
    ghost use Rattle.std.specs.List.Sorted.{IsNonDecreasingBy};
    ghost use Rattle.versioned_store.specs.Chains.{History};

    ghost Value = { History };

    ghost view = { λ c. record { base = c.base; changes = c.changes.items } };

    ghost invariant = { λ c. IsNonDecreasingBy (λ change. change.at.0) c.changes.items };
}

impl Chain {
    /// A key that was never there. It takes no memory.
    pub(crate) fn new(alloc: Global) -> Chain
        ensures { result ≡ no_history }
    {
        Chain {
            base: None,
            changes: VecDeque::new(alloc),
        }
    }

    /// A key that has the value from the floor on. It takes no memory.
    pub(crate) fn of(alloc: Global, value: Bytes) -> Chain
        ensures base { result.base ≡ Some value }
        ensures changes { result.changes ≡ [] }
    {
        Chain {
            base: Some(value),
            changes: VecDeque::new(alloc),
        }
    }

    /// Whether nothing is known of the key.
    pub(crate) fn is_empty(&self) -> bool
        ensures { IsTrue result ↔ (self.now ≡ no_history) }
    {
        self.base.is_none() && self.changes.is_empty()
    }

    /// One more change, which isn't below the others.
    pub(crate) fn push(&mut self, change: Change) -> Result<(), NoMemory>
        requires { All (λ earlier. earlier.at.0 ≤ change.at.0) self.old.changes }
        ensures ok { OnOk result (self.new ≡ with_change self.old change) }
        ensures err { OnErr result (self.new ≡ self.old) }
    {
        self.changes.push_back(change)?;
        Ok(())
    }

    /// The newest change goes.
    pub(crate) fn pop(&mut self)
        ensures { self.new ≡ without_newest self.old }
    {
        self.changes.pop_back();
    }

    /// The value of the oldest change becomes the one at the floor.
    pub(crate) fn merge(&mut self)
        ensures { self.new ≡ with_base self.old }
    {
        if let Some(oldest) = self.changes.pop_front() {
            self.base = oldest.value;
        }
    }

    /// The value at a version.
    pub(crate) fn value_at(&self, v: Lsn) -> Option<&Bytes>
        ensures { option_copied result ≡ value_in self.now v.0 }
    {
        let count = self.changes.partition_point(
            |change: &Change| -> bool
                ensures { result ≡ nat_le change.now.at.0 v.0 }
            { change.at.0 <= v.0 },
        );
        if count == 0 {
            self.base.as_ref()
        } else {
            self.changes[count - 1].value.as_ref()
        }
    }
}
