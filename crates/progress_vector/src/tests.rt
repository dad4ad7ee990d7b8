ghost use Rattle.std.specs.Prelude.{◌≡◌, IfOk};

use super::*;
use rc_base::{Epoch, Lsn, NoMemory};
use std::alloc::Global;
use std::test::*;

fn epoch(number: u32) -> Epoch
    ensures { result ≡ record { loss = 0; number = number } }
{
    Epoch { loss: 0, number }
}

// A vector with these epochs and their starts.
fn vector(alloc: Global, base: u64, last: u64, starts: &[(u32, u64)]) -> Result<Vector, Fail>
    ensures base { IfOk result (λ v. v.base.0 ≡ base) }
    ensures last { IfOk result (λ v. v.last.0 ≡ last) }
{
    let mut entries = Entries::new(alloc);
    for (number, start) in starts {
        entries.push(epoch(*number), Lsn(*start))?;
    }
    Ok(Vector {
        base: Lsn(base),
        entries,
        last: Lsn(last),
    })
}

// The base, the last position, and the epochs with their starts.
type Shape = (u64, u64, &'static [(u32, u64)]);

fn mode_of(alloc: Global, source: Shape, target: Shape) -> Result<Mode, Fail> {
    let source = vector(alloc, source.0, source.1, source.2)?;
    let target = vector(alloc, target.0, target.1, target.2)?;
    Ok(copy_mode(&source, &target))
}

const ONE: &[(u32, u64)] = &[(1, 1)];

const SOURCE: &[(u32, u64)] = &[(1, 1), (2, 4), (4, 9)];

const TARGET: &[(u32, u64)] = &[(1, 1), (2, 4), (3, 6)];

const MODES: [(Shape, Shape, Mode); 12] = [
    ((0, 5, ONE), (0, 5, ONE), Mode::Same),
    ((0, 5, ONE), (0, 7, ONE), Mode::Same),
    ((0, 0, &[]), (0, 0, &[]), Mode::Same),
    ((0, 4, &[(2, 1)]), (0, 3, ONE), Mode::Undo { fork: Lsn(0) }),
    ((6, 9, ONE), (0, 4, ONE), Mode::Full),
    ((6, 9, ONE), (0, 6, ONE), Mode::Partial { from: Lsn(6) }),
    // the target's last records were never in the source
    (
        (0, 9, &[(1, 1), (2, 8)]),
        (0, 10, ONE),
        Mode::Undo { fork: Lsn(7) },
    ),
    // a base at the fork, and bases above it
    ((5, 12, SOURCE), (3, 8, TARGET), Mode::Undo { fork: Lsn(5) }),
    ((6, 12, SOURCE), (3, 8, TARGET), Mode::Full),
    ((0, 12, SOURCE), (6, 8, TARGET), Mode::Full),
    (
        (0, 8, &[(2, 3)]),
        (0, 8, &[(1, 2)]),
        Mode::Undo { fork: Lsn(1) },
    ),
    ((9, 5, ONE), (0, 5, ONE), Mode::Full),
];

#[test]
fn copy_mode_table(rt: HostRuntime) -> Result<(), Fail> {
    for (source, target, mode) in MODES {
        assert_eq!(rt; mode_of(rt.alloc(), source, target)?, mode);
    }
    Ok(())
}

#[test]
fn epochs_of_positions(rt: HostRuntime) -> Result<(), Fail> {
    let v = vector(rt.alloc(), 1, 6, &[(1, 2), (3, 4), (4, 5)])?;
    let numbers = [0, 0, 1, 1, 3, 4, 4];
    for (lsn, number) in numbers.iter().enumerate() {
        if lsn <= 6 {
            assert_eq!(rt; v.epoch_at(Lsn(lsn as u64)), epoch(*number));
        }
    }
    Ok(())
}

#[test]
fn cut_at_each_place(rt: HostRuntime) -> Result<(), Fail> {
    let kept = [0, 0, 1, 1, 2, 3, 3];
    for (lsn, count) in kept.iter().enumerate() {
        let mut v = vector(rt.alloc(), 0, 6, &[(1, 2), (3, 4), (4, 5)])?;
        if lsn <= 6 {
            let at = Lsn(lsn as u64);
            v.cut_to(at);
            assert_eq!(rt; v.entries.as_slice().len(), *count);
            assert_eq!(rt; v.last, at);
        }
    }
    Ok(())
}

// A new vector, with two epochs and a record between their starts.
fn grown(alloc: Global) -> Result<Vector, NoMemory>
    ensures base { IfOk result (λ v. v.base.0 ≡ 0) }
    ensures last { IfOk result (λ v. v.last.0 ≡ 3) }
{
    let mut v = Vector {
        base: Lsn(0),
        entries: Entries::new(alloc),
        last: Lsn(0),
    };
    v.start_epoch(epoch(1))?;
    v.advance();
    v.start_epoch(epoch(2))?;
    Ok(v)
}

#[test]
fn a_vector_grows(rt: HostRuntime) -> Result<(), Fail> {
    let v = grown(rt.alloc())?;
    assert_eq!(rt; v.last, Lsn(3));
    assert_eq!(rt;
        v.entries.into_vec().as_slice(),
        [(epoch(1), Lsn(1)), (epoch(2), Lsn(3))].as_slice()
    );
    Ok(())
}

// The bases of a vector and of a copy that is trimmed.
fn bases(alloc: Global) -> Result<(Lsn, Lsn), NoMemory> {
    let v = grown(alloc)?;
    let mut copy = v.clone()?;
    copy.trim_to(Lsn(2));
    Ok((v.base, copy.base))
}

#[test]
fn a_copy_is_trimmed(rt: HostRuntime) -> Result<(), Fail> {
    assert_eq!(rt; bases(rt.alloc())?, (Lsn(0), Lsn(2)));
    Ok(())
}

#[test]
fn printed_modes(rt: HostRuntime) -> Result<(), Fail> {
    let alloc = rt.alloc();
    let partial = Mode::Partial { from: Lsn(6) };
    let undo = Mode::Undo { fork: Lsn(70) };
    let text = format!(in alloc; "{} {} {} {}", Mode::Same, partial, undo, Mode::Full)?;
    assert_eq!(rt; text.as_str(), "none partial@6 undo@70 full");
    Ok(())
}
