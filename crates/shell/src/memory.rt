ghost use Rattle.std.specs.Prelude.{◌≡◌, All, IfOk, vec_len};
ghost use Rattle.shell.specs.Fleet.{IsFresh};

use disk_model::{CrashDisk, Disk, MemDisk};
use std::alloc::{AllocError, Global};

/// Nine empty disks in memory, as `run` takes them: the first is that of replica 0.
///
/// # Errors
/// Out of memory.
pub fn nine_disks(alloc: Global) -> Result<Vec<MemDisk>, AllocError>
    ensures nine { IfOk result (λ fleet. vec_len fleet ≡ 9) }
    ensures fresh { IfOk result (λ fleet. All (IsFresh ⟦<MemDisk as Disk>⟧.images ⟦<MemDisk as Disk>⟧.faults ⟦<MemDisk as Disk>⟧.marks ⟦<MemDisk as Disk>⟧.calls_left) fleet.items) }
{
    let mut fleet = Vec::new(alloc);
    for _ in 0..9usize {
        fleet.push(MemDisk::new(alloc))?;
    }
    Ok(fleet)
}
