ghost use Rattle.std.specs.Prelude.{◌≡◌, ◌+◌, ◌^◌, ◌<◌, ◌≤◌, Option, Some, None, ℕ, length, take, drop, IfOk, OnOk, IsErrOf, IsSome};
ghost use Rattle.std.specs.Option.{ForSome, option_map};
ghost use Rattle.rc_base.specs.Counts.{Counted};
ghost use Rattle.disk_model.specs.Disk.{Areas, written, with_area, Torn, Cut, Changes, Follows, Within, Only, IsRead, Stays, Marks, after_arm, after_stop, nearer, Turns};
ghost use Rattle.disk_model.specs.declared.disk.DiskError.TheVariants.{Failed, NoMemory};

use crate::Area;
use thiserror::Error;

/// Why a call of a disk was not done.
#[derive(Clone, Copy, Debug, PartialEq, Eq, Error)]
pub enum DiskError {
    /// The disk failed, and its count of faults rose.
    #[error("the disk failed")]
    Failed,
    /// Want of memory. The disk is as it was.
    #[error("out of memory")]
    NoMemory,
}

/// A disk of four areas of bytes. Any call may fail.
///
/// A write or a cut is on the disk for sure only after the next successful `sync`: until then a stop may leave any
/// bytes in each range that was written and past the old end, and after a cut any length between.
/// The promises hold at each exit. So a stop between two calls is the failure of the second with nothing done.
pub trait Disk {
    /// The bytes that reads give, where the disk tells them.
    ghost seen: { Self → Option Areas };

    /// What a stop now may leave, as a test.
    ghost images: { Self → Areas → Type 0 };

    /// How often the disk has failed, which stands still at 2^64 - 1.
    ghost faults: { Self → ℕ };

    /// What only `arm` and `crash` change: how often each was done, and the number that the latest of them was handed.
    /// The counts stand still at 2^64 - 1.
    ghost marks: { Self → Marks };

    /// How many calls a disk that was armed still does, before each call fails.
    ghost calls_left: { Self → Option ℕ };

    /// Reads from a place on, as far as both the buffer and the area reach, and answers how many bytes these are.
    fn read_at(&mut self, area: Area, at: u64, buf: &mut [u8]) -> Result<usize, DiskError>
        ensures within { IfOk result (λ n. n ≤ length buf.old) }
        ensures read { IfOk result (λ n. ForSome (seen self.old) (λ s. IsRead (drop at (s area)) n buf.old buf.new)) }
        ensures seen { seen self.new ≡ seen self.old }
        ensures stop { Within (images self.old) (images self.new) }
        ensures memory { IsErrOf result NoMemory → Stays (seen self.old) (seen self.new) (images self.old) (images self.new) (faults self.old) (faults self.new) }
        ensures cause { Counted (faults self.old) (faults self.new) (IsErrOf result Failed) }
        ensures marks { marks self.new ≡ marks self.old }
        ensures turn { Turns (calls_left self.old) (calls_left self.new) result };

    /// The length of an area in bytes.
    fn len(&mut self, area: Area) -> Result<u64, DiskError>
        ensures len { IfOk result (λ n. ForSome (seen self.old) (λ s. n ≡ length (s area))) }
        ensures fits { IfOk result (λ n. n < 2 ^ 63) }
        ensures seen { seen self.new ≡ seen self.old }
        ensures stop { Within (images self.old) (images self.new) }
        ensures memory { IsErrOf result NoMemory → Stays (seen self.old) (seen self.new) (images self.old) (images self.new) (faults self.old) (faults self.new) }
        ensures cause { Counted (faults self.old) (faults self.new) (IsErrOf result Failed) }
        ensures marks { marks self.new ≡ marks self.old }
        ensures turn { Turns (calls_left self.old) (calls_left self.new) result };

    /// Writes over what is there, and past the end. A write that would make the area longer than 2^63 - 1 bytes fails.
    fn write_at(&mut self, area: Area, at: u64, bytes: &[u8]) -> Result<(), DiskError>
        requires { ForSome (seen self.old) (λ s. at ≤ length (s area)) }
        ensures room { OnOk result (at + length bytes.now < 2 ^ 63) }
        ensures written { OnOk result (seen self.new ≡ option_map (with_area area (written at bytes.now)) (seen self.old)) }
        ensures stop { Follows (Changes area (Torn at (length bytes.now))) (images self.old) (images self.new) }
        ensures memory { IsErrOf result NoMemory → Stays (seen self.old) (seen self.new) (images self.old) (images self.new) (faults self.old) (faults self.new) }
        ensures cause { Counted (faults self.old) (faults self.new) (IsErrOf result Failed) }
        ensures marks { marks self.new ≡ marks self.old }
        ensures turn { Turns (calls_left self.old) (calls_left self.new) result };

    /// Cuts an area to a length, which is not above its present one.
    fn cut(&mut self, area: Area, len: u64) -> Result<(), DiskError>
        requires { ForSome (seen self.old) (λ s. len ≤ length (s area)) }
        ensures cut { OnOk result (seen self.new ≡ option_map (with_area area (take len)) (seen self.old)) }
        ensures stop { Follows (Changes area (Cut len)) (images self.old) (images self.new) }
        ensures memory { IsErrOf result NoMemory → Stays (seen self.old) (seen self.new) (images self.old) (images self.new) (faults self.old) (faults self.new) }
        ensures cause { Counted (faults self.old) (faults self.new) (IsErrOf result Failed) }
        ensures marks { marks self.new ≡ marks self.old }
        ensures turn { Turns (calls_left self.old) (calls_left self.new) result };

    /// After it a stop leaves what reads give, and nothing else.
    fn sync(&mut self) -> Result<(), DiskError>
        ensures durable { OnOk result (Only (seen self.old) (images self.new)) }
        ensures seen { seen self.new ≡ seen self.old }
        ensures stop { Within (images self.old) (images self.new) }
        ensures memory { IsErrOf result NoMemory → Stays (seen self.old) (seen self.new) (images self.old) (images self.new) (faults self.old) (faults self.new) }
        ensures cause { Counted (faults self.old) (faults self.new) (IsErrOf result Failed) }
        ensures marks { marks self.new ≡ marks self.old }
        ensures turn { Turns (calls_left self.old) (calls_left self.new) result };

    /// What reads give is one of the images.
    ghost seen_is_image: { (disk : Self) → ForSome (seen disk) (images disk) };

    /// No area is longer than 2^63 - 1 bytes.
    ghost area_fits: { (disk : Self) → ForSome (seen disk) (λ s. (area : ℕ) → length (s area) < 2 ^ 63) };
}

/// A disk that can be told to fail, and to stop. It always tells its bytes.
pub trait CrashDisk: Disk {
    /// Makes the call of `Disk` with this number from now on fail, counted from 1, and each later one, until `crash`.
    /// If it is armed already, the nearer of the two calls fails. It takes no memory.
    fn arm(&mut self, calls: u64)
        requires { 1 ≤ calls }
        ensures stays { Stays (Self.seen self.old) (Self.seen self.new) (Self.images self.old) (Self.images self.new) (Self.faults self.old) (Self.faults self.new) }
        ensures nearer { Self.calls_left self.new ≡ Some (nearer calls (Self.calls_left self.old)) }
        ensures marks { Self.marks self.new ≡ after_arm calls (Self.marks self.old) };

    /// Stops the disk: it is left with one of its images, which `pick` picks, and is disarmed. It takes no memory.
    fn crash(&mut self, pick: u64)
        ensures left { ForSome (Self.seen self.new) (Self.images self.old) }
        ensures only { Only (Self.seen self.new) (Self.images self.new) }
        ensures disarmed { Self.calls_left self.new ≡ None }
        ensures faults { Self.faults self.new ≡ Self.faults self.old }
        ensures marks { Self.marks self.new ≡ after_stop pick (Self.marks self.old) };

    /// It tells its bytes.
    ghost tells: { (disk : Self) → IsSome (Self.seen disk) };
}
