ghost use Rattle.std.specs.Prelude.{◌≡◌, ◌<◌, ◌≤◌, Option, List, ℕ, length, take, drop, IfOk, OnOk, OnErr, IsErr};
ghost use Rattle.std.specs.Io.KnownBytes.{append_known};
ghost use Rattle.rc_base.specs.Counts.{Counted};

use crate::failed::Failed;

/// What takes bytes, one piece after another.
pub trait Sink {
    /// The bytes that it holds, where it tells them.
    ghost holds: { Self → Option (List ℕ) };

    /// How often it has failed. The count never falls, and stands still at 2^64 - 1.
    ghost faults: { Self → ℕ };

    /// Adds the first bytes of the piece to what it holds, and answers how many: of a piece that isn't empty at least
    /// one.
    ///
    /// # Errors
    /// `Failed` only where the sink's count of faults rose. It holds then what it held.
    fn write(&mut self, piece: &[u8]) -> Result<usize, Failed>
        ensures within { IfOk result (λ n. n ≤ length piece.now) }
        ensures progress { IfOk result (λ n. 0 < length piece.now → 0 < n) }
        ensures added { IfOk result (λ n. holds self.new ≡ append_known (holds self.old) (take n piece.now)) }
        ensures failed { OnErr result (holds self.new ≡ holds self.old) }
        ensures cause { Counted (faults self.old) (faults self.new) (IsErr result) };
}

/// Writes all the bytes, in as many calls as the sink needs. It takes no memory.
///
/// # Errors
/// `Failed` only where the sink's count of faults rose. The sink then holds besides only a part of the bytes from
/// their front, and not all.
pub fn write_all<K: Sink>(sink: &mut K, bytes: &[u8]) -> Result<(), Failed>
    ensures all { OnOk result (K.holds sink.new ≡ append_known (K.holds sink.old) bytes.now) }
    ensures part { OnErr result ((n : ℕ) × (n < length bytes.now) × (K.holds sink.new ≡ append_known (K.holds sink.old) (take n bytes.now))) }
    ensures cause { Counted (K.faults sink.old) (K.faults sink.new) (IsErr result) }
{
    let mut at = 0;
    while at < bytes.len() {
        at += sink.write(&bytes[at..])?;
    }
    Ok(())
}
