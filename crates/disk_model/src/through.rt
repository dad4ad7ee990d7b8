// Calls of a disk that belong together. A caller above writes and syncs by these alone.
ghost use Rattle.std.specs.Prelude.{◌≡◌, ◌+◌, ◌^◌, ◌<◌, ◌≤◌, ℕ, length, take, IfOk, OnOk, IsErrOf};
ghost use Rattle.std.specs.Option.{ForSome, option_map};
ghost use Rattle.rc_base.specs.Counts.{Counted};
ghost use Rattle.disk_model.specs.Disk.{written, with_area, Torn, Cut, Changes, Becomes, Follows, Within, Only};
ghost use Rattle.disk_model.specs.declared.disk.DiskError.TheVariants.{Failed};

use crate::{Area, Disk, DiskError};
use rc_base::Bytes;
use std::alloc::Global;

/// Writes, and syncs. After it a stop leaves what was written.
///
/// # Errors
/// Those of the disk. What was asked may be there then, or a torn part of it.
pub fn write_through<D: Disk>(
    disk: &mut D,
    area: Area,
    at: u64,
    bytes: &[u8],
) -> Result<(), DiskError>
    requires { ForSome (D.seen disk.old) (λ s. at ≤ length (s area)) }
    ensures ok { OnOk result (Follows (Becomes area (written at bytes.now)) (D.images disk.old) (D.images disk.new)) }
    ensures stop { Follows (Changes area (Torn at (length bytes.now))) (D.images disk.old) (D.images disk.new) }
    ensures told { OnOk result (D.seen disk.new ≡ option_map (with_area area (written at bytes.now)) (D.seen disk.old)) }
    ensures durable { OnOk result (Only (D.seen disk.new) (D.images disk.new)) }
    ensures room { OnOk result (at + length bytes.now < 2 ^ 63) }
    ensures cause { Counted (D.faults disk.old) (D.faults disk.new) (IsErrOf result Failed) }
    ensures marks { D.marks disk.new ≡ D.marks disk.old }
{
    disk.write_at(area, at, bytes)?;
    disk.sync()?;
    Ok(())
}

/// Cuts, and syncs. After it a stop leaves what was cut.
///
/// # Errors
/// Those of the disk. The length may be any between then.
pub fn cut_through<D: Disk>(disk: &mut D, area: Area, len: u64) -> Result<(), DiskError>
    requires { ForSome (D.seen disk.old) (λ s. len ≤ length (s area)) }
    ensures ok { OnOk result (Follows (Becomes area (take len)) (D.images disk.old) (D.images disk.new)) }
    ensures stop { Follows (Changes area (Cut len)) (D.images disk.old) (D.images disk.new) }
    ensures told { OnOk result (D.seen disk.new ≡ option_map (with_area area (take len)) (D.seen disk.old)) }
    ensures durable { OnOk result (Only (D.seen disk.new) (D.images disk.new)) }
    ensures cause { Counted (D.faults disk.old) (D.faults disk.new) (IsErrOf result Failed) }
    ensures marks { D.marks disk.new ≡ D.marks disk.old }
{
    disk.cut(area, len)?;
    disk.sync()?;
    Ok(())
}

/// All the bytes of an area.
///
/// # Errors
/// Those of the disk, and `NoMemory` where the bytes find no room.
pub fn read_all<D: Disk>(alloc: Global, disk: &mut D, area: Area) -> Result<Bytes, DiskError>
    ensures read { IfOk result (λ b. ForSome (D.seen disk.old) (λ s. b ≡ s area)) }
    ensures fits { IfOk result (λ b. length b < 2 ^ 63) }
    ensures seen { D.seen disk.new ≡ D.seen disk.old }
    ensures stop { Within (D.images disk.old) (D.images disk.new) }
    ensures cause { Counted (D.faults disk.old) (D.faults disk.new) (IsErrOf result Failed) }
    ensures marks { D.marks disk.new ≡ D.marks disk.old }
{
    let len = disk.len(area)?;
    let mut bytes = Vec::new(alloc);
    bytes
        .resize(len as usize, 0)
        .map_err(|_| DiskError::NoMemory)?;
    let count = disk.read_at(area, 0, &mut bytes)?;
    bytes.truncate(count);
    Ok(Bytes::from_vec(bytes))
}
