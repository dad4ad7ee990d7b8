ghost use Rattle.std.specs.Prelude.{◌≡◌, ◌≤◌, ℕ, IfSome, IfNone};
ghost use Rattle.progress_vector.specs.Vectors.{last_at, origin};
ghost use Rattle.progress_vector.specs.Modes.{IsMode, IsFork, IsCommon, OneMode, mode_of};

use crate::mode::Mode;
use crate::vector::Vector;
use rc_base::{Epoch, Lsn};

/// What stands before every entry: position 0 has epoch 0.0.
const ORIGIN: (Epoch, Lsn) = (Epoch { loss: 0, number: 0 }, Lsn(0));

/// The mode by which a copy brings a target to what a source has. The fork is the greatest position from the greater
/// of the bases to the lesser of the lasts at which both vectors have one epoch. It takes no memory.
pub fn copy_mode(source: &Vector, target: &Vector) -> Mode
    ensures { IsMode source.now target.now result }
{
    match fork(source, target) {
        None => Mode::Full,
        Some(at) => mode_from(source.last, target.last, at),
    }
}

/// Two vectors have at most one mode.
pub fn one_mode()
    ensures { OneMode }
{}

// The mode by the two lasts and the fork.
fn mode_from(source: Lsn, target: Lsn, fork: Lsn) -> Mode
    ensures { result ≡ mode_of source target fork }
{
    if fork.0 == source.0 {
        Mode::Same
    } else if fork.0 == target.0 {
        Mode::Partial { from: fork }
    } else {
        Mode::Undo { fork }
    }
}

// The greatest position that both know and at which they have one epoch. From the start of the later of two entries
// on, up to the position at which they were looked up, the epochs stay.
fn fork(source: &Vector, target: &Vector) -> Option<Lsn>
    ensures some { IfSome result (λ at. IsFork source.now target.now at.0) }
    ensures none { IfNone result ((lsn : ℕ) → IsCommon source.now target.now lsn → ⊥) }
{
    let low = source.base.0.max(target.base.0);
    let mut at = source.last.0.min(target.last.0);
    let mut ours = source.entries.as_slice();
    let mut theirs = target.entries.as_slice();
    while low <= at {
        let (of_source, a) = up_to(ours, at);
        let (of_target, b) = up_to(theirs, at);
        if a.0 == b.0 {
            return Some(Lsn(at));
        }
        ours = of_source;
        theirs = of_target;
        let start = a.1.0.max(b.1.0);
        if start == 0 {
            return None;
        }
        at = start - 1;
    }
    None
}

/// The last entry at or below a position, or what stands before every entry.
pub fn entry_at(entries: &[(Epoch, Lsn)], lsn: Lsn) -> (Epoch, Lsn)
    ensures { result ≡ last_at origin entries.now lsn.0 }
{
    up_to(entries, lsn.0).1
}

// The entries without those behind the last that starts at or below the position, and that last one.
fn up_to(entries: &[(Epoch, Lsn)], at: u64) -> (&[(Epoch, Lsn)], (Epoch, Lsn))
    ensures same { (lsn : ℕ) → lsn ≤ at → last_at origin result.0.now lsn ≡ last_at origin entries.now lsn }
    ensures last { result.1 ≡ last_at origin entries.now at }
{
    let mut rest = entries;
    while let Some((entry, earlier)) = rest.split_last() {
        if entry.1.0 <= at {
            return (rest, *entry);
        }
        rest = earlier;
    }
    (rest, ORIGIN)
}
