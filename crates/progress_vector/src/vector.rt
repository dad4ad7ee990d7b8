ghost use Rattle.std.specs.Prelude.{◌≡◌};

use crate::entries::Entries;
use rc_base::{Epoch, Lsn, NoMemory};
use std::alloc::AllocError;

/// What a replica's log has: the position from which on it is kept, the epochs with their starts from the log's first
/// record on, and the last position.
#[derive(Drop)]
pub struct Vector {
    pub base: Lsn,
    pub entries: Entries,
    pub last: Lsn,
}

impl Vector {
    ghost use Rattle.std.specs.Prelude.{◌≡◌, ◌<◌, ◌≤◌, ◌^◌, ◌-◌, ℕ, OnOk, OnErr};
    ghost use Rattle.std.specs.List.{AllByRecursion};
    ghost use Rattle.progress_vector.specs.Vectors.{epoch_at, cut, trimmed, advanced, started, IsEpochBelow, HasForm};

    /// The epoch of the record at a position: that of the last entry at or below it, 0.0 before the first. It takes
    /// no memory.
    pub fn epoch_at(&self, lsn: Lsn) -> Epoch
        requires { lsn.0 ≤ self.now.last.0 }
        ensures { result ≡ epoch_at self.now.entries lsn.0 }
    {
        crate::copy::entry_at(self.entries.as_slice(), lsn).0
    }

    /// Takes away what stands above the position. It takes no memory.
    pub fn cut_to(&mut self, lsn: Lsn)
        requires from_base { self.old.base.0 ≤ lsn.0 }
        requires to_last { lsn.0 ≤ self.old.last.0 }
        ensures cut { self.new ≡ cut self.old lsn }
        ensures epochs { (at : ℕ) → at ≤ lsn.0 → epoch_at self.new.entries at ≡ epoch_at self.old.entries at }
        ensures form { HasForm self.old → HasForm self.new }
    {
        self.entries.cut_to(lsn);
        self.last = lsn;
    }

    /// The log is kept from this position on. It takes no memory.
    pub fn trim_to(&mut self, lsn: Lsn)
        requires from_base { self.old.base.0 ≤ lsn.0 }
        requires to_last { lsn.0 ≤ self.old.last.0 }
        ensures { self.new ≡ trimmed self.old lsn }
    {
        self.base = lsn;
    }

    /// One more record of the last epoch. It takes no memory.
    pub fn advance(&mut self)
        requires { self.old.last.0 < 2 ^ 64 - 1 }
        ensures advanced { self.new ≡ advanced self.old }
        ensures form { HasForm self.old → HasForm self.new }
    {
        self.last = Lsn(self.last.0 + 1);
    }

    /// One more record, with which an epoch starts.
    ///
    /// # Errors
    /// `NoMemory`, and then the vector is as before.
    pub fn start_epoch(&mut self, epoch: Epoch) -> Result<(), NoMemory>
        requires room { self.old.last.0 < 2 ^ 64 - 1 }
        requires above { AllByRecursion (λ entry. IsEpochBelow entry.0 epoch) self.old.entries }
        ensures ok { OnOk result (self.new ≡ started self.old epoch) }
        ensures err { OnErr result (self.new ≡ self.old) }
        ensures form { HasForm self.old → HasForm self.new }
    {
        let start = Lsn(self.last.0 + 1);
        self.entries.push(epoch, start)?;
        self.last = start;
        Ok(())
    }
}

impl Clone for Vector {
    ghost is_clone = { λ x y. y ≡ x };

    fn clone(&self) -> Result<Vector, AllocError> {
        Ok(Vector {
            base: self.base,
            entries: self.entries.clone()?,
            last: self.last,
        })
    }
}
