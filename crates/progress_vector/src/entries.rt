ghost use Rattle.std.specs.Prelude.{◌≡◌, ◌++◌, ◌∷◌, [], OnOk, OnErr, filter, nat_le, ℕ};

use rc_base::{Epoch, Lsn, NoMemory};
use std::alloc::{AllocError, Global};
use std::marker::Model;

/// Epochs in order, each with the position of the record that starts it. Contracts see the list of them.
#[derive(Drop)]
pub struct Entries {
    entries: Vec<(Epoch, Lsn)>,
}

impl Model for Entries {
    ghost use Rattle.std.specs.Prelude.{List};
    ghost use Rattle.rc_base.specs.declared.ids.Epoch.{Epoch};
    ghost use Rattle.rc_base.specs.declared.ids.Lsn.{Lsn};

    ghost Value = { List (Epoch × Lsn) };

    ghost view = { λ e. e.entries.items };
}

impl Entries {
    /// No entries. It takes no memory.
    pub fn new(alloc: Global) -> Entries
        ensures { result ≡ [] }
    {
        Entries {
            entries: Vec::new(alloc),
        }
    }

    /// The entries of a vector, without a copy.
    pub fn from_vec(entries: Vec<(Epoch, Lsn)>) -> Entries
        ensures { result ≡ entries.items }
    {
        Entries { entries }
    }

    /// The vector again, without a copy.
    pub fn into_vec(self) -> Vec<(Epoch, Lsn)>
        ensures { result.items ≡ self }
    {
        let Entries { entries } = self;
        entries
    }

    /// The entries.
    pub fn as_slice(&self) -> &[(Epoch, Lsn)]
        ensures { result.now ≡ self.now }
    {
        &self.entries
    }

    /// One more, after the others.
    ///
    /// # Errors
    /// `NoMemory`, and then the entries are as before.
    pub fn push(&mut self, epoch: Epoch, start: Lsn) -> Result<(), NoMemory>
        ensures ok { OnOk result (self.new ≡ self.old ++ (epoch, start) ∷ []) }
        ensures err { OnErr result (self.new ≡ self.old) }
    {
        self.entries.push((epoch, start))?;
        Ok(())
    }

    /// Takes away those that start above the position. It takes no memory.
    pub fn cut_to(&mut self, lsn: Lsn)
        ensures { self.new ≡ filter (λ entry. nat_le entry.1.0 lsn.0) self.old }
    {
        retain_to(&mut self.entries, lsn);
    }
}

fn retain_to(entries: &mut Vec<(Epoch, Lsn)>, lsn: Lsn)
    ensures { entries.new.items ≡ filter (λ entry. nat_le entry.1.0 lsn.0) entries.old.items }
{
    entries.retain(|entry| entry.1.0 <= lsn.0);
}

impl Clone for Entries {
    ghost is_clone = { λ x y. y ≡ x };

    fn clone(&self) -> Result<Entries, AllocError> {
        Ok(Entries {
            entries: self.entries.clone()?,
        })
    }
}
