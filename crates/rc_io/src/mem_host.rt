ghost use Rattle.std.specs.Prelude.{◌≡◌, ◌≢◌, ◌≤◌, ◌<◌, ◌∷◌, ◌++◌, [], Some, None, Err, Option, List, ℕ, length, IfOk, OnOk, OnErr, IsErrOf, vec_len, position, nat_eq};
ghost use Rattle.std.specs.Cmp.Lexicographic.{pointwise};
ghost use Rattle.rc_io.specs.Folders.{disk_in, IsAt, Opens};
ghost use Rattle.disk_model.specs.declared.disk.DiskError.TheVariants.{Failed};

use crate::calls::Calls;
use crate::host::Host;
use disk_model::{Disk, DiskError, MemDisk};
use rc_base::{Name, NoMemory};
use std::alloc::Global;

// A folder and its disk.
#[derive(Drop)]
struct Folder {
    name: Name,
    disk: MemDisk,
}

/// A host in memory: folders with their disks. Chosen calls fail.
#[derive(Drop)]
pub struct MemHost {
    alloc: Global,
    folders: Vec<Folder>,
    calls: Calls,
}

impl MemHost {
    /// A host with no folders, of which the calls of `store` with these rising numbers fail, counted from 1. It takes
    /// no memory.
    pub fn new(alloc: Global, fails: Vec<u64>) -> MemHost
        ensures empty { (folder : List ℕ) → ⟦<MemHost as Host>⟧.disk result folder ≡ None }
        ensures faults { ⟦<MemHost as Host>⟧.faults result ≡ 0 }
        ensures calls { ⟦<MemHost as Host>⟧.calls result ≡ Some (record { made = 0; fails = fails.items; faults = 0 }) }
    {
        MemHost {
            alloc,
            folders: Vec::new(alloc),
            calls: Calls::new(fails),
        }
    }

    /// The folder has this disk. It has none yet.
    ///
    /// # Errors
    /// `NoMemory` for want of memory alone. The host is as it was, and the disk is dropped.
    pub fn add(&mut self, folder: &str, disk: MemDisk) -> Result<(), NoMemory>
        requires { ⟦<MemHost as Host>⟧.disk self.old folder.now ≡ None }
        ensures there { OnOk result (⟦<MemHost as Host>⟧.disk self.new folder.now ≡ Some disk) }
        ensures elsewhere { (other : List ℕ) → other ≢ folder.now → ⟦<MemHost as Host>⟧.disk self.new other ≡ ⟦<MemHost as Host>⟧.disk self.old other }
        ensures err { OnErr result ((other : List ℕ) → ⟦<MemHost as Host>⟧.disk self.new other ≡ ⟦<MemHost as Host>⟧.disk self.old other) }
        ensures faults { ⟦<MemHost as Host>⟧.faults self.new ≡ ⟦<MemHost as Host>⟧.faults self.old }
        ensures calls { ⟦<MemHost as Host>⟧.calls self.new ≡ ⟦<MemHost as Host>⟧.calls self.old }
    {
        push(self.alloc, &mut self.folders, folder, disk)
    }
}

// Whether the folder has this name.
fn is_named(folder: &Folder, name: &str) -> bool
    ensures { result ≡ pointwise nat_eq folder.now.name name.now }
{
    folder.name.as_slice() == name.as_bytes()
}

// The place of the folder with this name.
fn find(folders: &[Folder], name: &str) -> Option<usize>
    ensures { result ≡ position (λ folder. pointwise nat_eq folder.name name.now) folders.now }
{
    folders.iter().position(|folder| is_named(folder, name))
}

// One folder more.
fn push(alloc: Global, folders: &mut Vec<Folder>, name: &str, disk: MemDisk) -> Result<(), NoMemory>
    ensures ok { OnOk result (folders.new.items ≡ folders.old.items ++ record { name = name.now; disk = disk } ∷ []) }
    ensures err { OnErr result (folders.new.items ≡ folders.old.items) }
{
    let name = Name::from_slice(alloc, name.as_bytes())?;
    folders.push(Folder { name, disk })?;
    Ok(())
}

// The place of the folder with this name, which is made where there is none.
fn place(alloc: Global, folders: &mut Vec<Folder>, name: &str) -> Result<usize, DiskError>
    ensures at { IfOk result (IsAt folders.new.items name.now) }
    ensures there { OnOk result (Opens ⟦<MemDisk as Disk>⟧.seen (disk_in folders.old.items name.now) (disk_in folders.new.items name.now)) }
    ensures elsewhere { (other : List ℕ) → other ≢ name.now → disk_in folders.new.items other ≡ disk_in folders.old.items other }
    ensures err { OnErr result (folders.new.items ≡ folders.old.items) }
    ensures memory { OnErr result (result ≡ Err DiskError.NoMemory) }
{
    if let Some(at) = find(folders, name) {
        return Ok(at);
    }
    let at = folders.len();
    match push(alloc, folders, name, MemDisk::new(alloc)) {
        Ok(()) => Ok(at),
        Err(NoMemory) => Err(DiskError::NoMemory),
    }
}

impl Host for MemHost {
    type Store = MemDisk;

    ghost disk = { λ h folder. disk_in h.folders.items folder };

    ghost faults = { λ h. h.calls.faults };

    ghost calls = { λ h. Some h.calls };

    fn store(&mut self, folder: &str) -> Result<&mut MemDisk, DiskError> {
        if self.calls.turn().is_err() {
            return Err(DiskError::Failed);
        }
        let at = place(self.alloc, &mut self.folders, folder)?;
        let found = &mut self.folders[at];
        Ok(&mut found.disk)
    }
}
