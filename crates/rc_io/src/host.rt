ghost use Rattle.std.specs.Prelude.{◌≡◌, ◌≢◌, ◌↔◌, true, Option, List, ℕ, IfOk, IsErrOf};
ghost use Rattle.std.specs.Option.{ForSome};
ghost use Rattle.std.specs.Borrow.{LendsSoOk, sem};
ghost use Rattle.rc_io.specs.Calls.{Turns, is_listed};
ghost use Rattle.rc_io.specs.Hosts.{Lent, Kept, IsFolders};
ghost use Rattle.disk_model.specs.declared.disk.DiskError.TheVariants.{Failed};

use disk_model::{Disk, DiskError};

/// What has a disk for each folder.
pub trait Host {
    type Store: Disk;

    /// The disk of a folder; none where the folder is new.
    ghost disk: { Self → List ℕ → Option Self.Store };

    /// How often the host has failed. The count never falls, and stands still at 2^64 - 1.
    ghost faults: { Self → ℕ };

    /// The calls of `store` that were made and that are to fail, where it tells them.
    ghost calls: { Self → Option Turns };

    /// Lends the disk of a folder, which is an empty one where the folder is new, and leaves all others.
    ///
    /// # Errors
    /// `Failed` only where the host's count of faults rose, which is at the calls that are to fail where it tells them;
    /// `NoMemory` where it is out of memory. Every disk is left.
    fn store(&mut self, folder: &str) -> Result<&mut Self::Store, DiskError>
        ensures* lends { sem 𝓛 (LendsSoOk Self.row Self.Store.row self.entry result (Lent disk faults calls folder.now self.old) (Kept disk faults calls (IsErrOf result Failed) self.old)) }
        ensures disk { IfOk result (λ d. IsFolders Self.Store.seen (disk self.old folder.now) d.now) }
        ensures listed { ForSome (calls self.old) (λ t. IsErrOf result Failed ↔ (is_listed t ≡ true)) };
}
