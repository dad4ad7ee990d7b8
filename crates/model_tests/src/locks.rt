use key_locks::{LockMode, LockName, Locks, TakeError};
use rc_base::{Bytes, Epoch, Name, NoMemory, TxnId};
use std::alloc::Global;
use std::process::Abort;
use std::test::*;

// What of the collection `d` is locked.
#[derive(Clone, Copy)]
enum Part {
    Name,
    Key(&'static str),
    Head,
    Tail,
}

const K: Part = Part::Key("k");

const L: Part = Part::Key("l");

#[derive(Clone, Copy)]
enum Step {
    // A transaction asks for a mode, and this one stands against it: none where it is granted.
    Ask(u64, Part, LockMode, Option<u64>),
    // A transaction's locks go.
    Release(u64),
    // The mode in which a transaction holds it.
    Holds(u64, Part, Option<LockMode>),
}

fn txn(n: u64) -> TxnId {
    TxnId {
        epoch: Epoch { loss: 0, number: 1 },
        n,
    }
}

fn key(alloc: Global, name: Name, key: &str) -> Result<LockName, NoMemory> {
    Ok(LockName::Key(name, Bytes::from_slice(alloc, key.as_bytes())?))
}

fn lock_name(alloc: Global, part: Part) -> Result<LockName, NoMemory> {
    let name = Name::from_slice(alloc, b"d")?;
    match part {
        Part::Name => Ok(LockName::Name(name)),
        Part::Key(text) => key(alloc, name, text),
        Part::Head => Ok(LockName::Head(name)),
        Part::Tail => Ok(LockName::Tail(name)),
    }
}

// The transaction that stands against the lock.
fn asked(
    alloc: Global,
    locks: &mut Locks,
    n: u64,
    part: Part,
    mode: LockMode,
) -> Result<Option<u64>, NoMemory> {
    let name = lock_name(alloc, part)?.clone()?;
    match locks.take(txn(n), &name, mode) {
        Ok(()) => Ok(None),
        Err(TakeError::Held { by }) => Ok(Some(by.n)),
        Err(TakeError::NoMemory) => Err(NoMemory),
    }
}

fn mode_held(
    alloc: Global,
    locks: &Locks,
    n: u64,
    part: Part,
) -> Result<Option<LockMode>, NoMemory> {
    let name = lock_name(alloc, part)?;
    Ok(locks.mode_of(txn(n), &name))
}

fn play(rt: &impl Abort, alloc: Global, locks: &mut Locks, step: Step) -> Result<(), Fail> {
    match step {
        Step::Ask(n, part, mode, holder) => {
            assert_eq!(rt; asked(alloc, locks, n, part, mode)?, holder, "{n}");
        }
        Step::Release(n) => locks.release(txn(n)),
        Step::Holds(n, part, mode) => {
            assert_eq!(rt; mode_held(alloc, locks, n, part)?, mode, "{n}");
        }
    }
    Ok(())
}

// A new lock table, and what transactions do.
fn run(rt: &impl Abort, alloc: Global, steps: &[Step]) -> Result<(), Fail> {
    let mut locks = Locks::new(alloc);
    for step in steps {
        play(rt, alloc, &mut locks, *step)?;
    }
    Ok(())
}

// The mode that transaction 1 has, the one that transaction 2 asks for, and who stands against that.
const MODES: [(LockMode, LockMode, Option<u64>); 9] = [
    (LockMode::Shared, LockMode::Shared, None),
    (LockMode::Shared, LockMode::Update, None),
    (LockMode::Shared, LockMode::Exclusive, Some(1)),
    (LockMode::Update, LockMode::Shared, Some(1)),
    (LockMode::Update, LockMode::Update, Some(1)),
    (LockMode::Update, LockMode::Exclusive, Some(1)),
    (LockMode::Exclusive, LockMode::Shared, Some(1)),
    (LockMode::Exclusive, LockMode::Update, Some(1)),
    (LockMode::Exclusive, LockMode::Exclusive, Some(1)),
];

#[test]
fn lock_table(rt: HostRuntime) -> Result<(), Fail> {
    for (first, second, holder) in MODES {
        run(
            &rt,
            rt.alloc(),
            &[
                Step::Ask(1, K, first, None),
                Step::Ask(2, K, second, holder),
            ],
        )?;
    }
    Ok(())
}

const CONFLICTING_WRITERS: &[Step] = &[
    Step::Ask(2, K, LockMode::Exclusive, None),
    Step::Ask(3, K, LockMode::Exclusive, Some(2)),
    Step::Release(2),
    Step::Ask(3, K, LockMode::Exclusive, None),
];

const SHARED_AGAIN_BESIDE_UPDATE: &[Step] = &[
    Step::Ask(1, K, LockMode::Shared, None),
    Step::Ask(2, K, LockMode::Update, None),
    Step::Ask(1, K, LockMode::Shared, Some(2)),
    Step::Holds(1, K, Some(LockMode::Shared)),
];

const FIRST_IN_ORDER_OF_GRANT: &[Step] = &[
    Step::Ask(5, K, LockMode::Shared, None),
    Step::Ask(3, K, LockMode::Shared, None),
    Step::Ask(4, K, LockMode::Shared, None),
    Step::Ask(4, K, LockMode::Exclusive, Some(5)),
    Step::Ask(5, K, LockMode::Exclusive, Some(3)),
    Step::Ask(3, K, LockMode::Update, None),
    Step::Ask(6, K, LockMode::Shared, Some(3)),
];

const RELEASE_TAKES_ONE_AWAY: &[Step] = &[
    Step::Ask(1, K, LockMode::Shared, None),
    Step::Ask(2, K, LockMode::Shared, None),
    Step::Ask(1, L, LockMode::Exclusive, None),
    Step::Release(1),
    Step::Holds(1, K, None),
    Step::Holds(1, L, None),
    Step::Holds(2, K, Some(LockMode::Shared)),
    Step::Ask(1, K, LockMode::Exclusive, Some(2)),
    Step::Ask(2, L, LockMode::Exclusive, None),
    Step::Release(7),
    Step::Holds(2, L, Some(LockMode::Exclusive)),
];

const STRONGEST_MODE_STAYS: &[Step] = &[
    Step::Ask(1, K, LockMode::Shared, None),
    Step::Ask(1, K, LockMode::Exclusive, None),
    Step::Holds(1, K, Some(LockMode::Exclusive)),
    Step::Ask(1, K, LockMode::Update, None),
    Step::Holds(1, K, Some(LockMode::Exclusive)),
];

const FOUR_KINDS_OF_NAMES: &[Step] = &[
    Step::Ask(1, Part::Name, LockMode::Exclusive, None),
    Step::Ask(2, Part::Key("d"), LockMode::Exclusive, None),
    Step::Ask(3, Part::Head, LockMode::Exclusive, None),
    Step::Ask(4, Part::Tail, LockMode::Exclusive, None),
    Step::Ask(5, Part::Tail, LockMode::Exclusive, Some(4)),
];

#[test]
fn locks_in_turn(rt: HostRuntime) -> Result<(), Fail> {
    for steps in [
        CONFLICTING_WRITERS,
        SHARED_AGAIN_BESIDE_UPDATE,
        FIRST_IN_ORDER_OF_GRANT,
        RELEASE_TAKES_ONE_AWAY,
        STRONGEST_MODE_STAYS,
        FOUR_KINDS_OF_NAMES,
    ] {
        run(&rt, rt.alloc(), steps)?;
    }
    Ok(())
}
