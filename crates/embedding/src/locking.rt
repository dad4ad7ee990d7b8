// How the lock table of the crate `key_locks` is called.
use anyhow::Result;
use key_locks::{LockMode, LockName, Locks, TakeError};
use rc_base::{Bytes, Epoch, Name, NoMemory, TxnId};
use std::alloc::Global;
use std::io::Write;

const EPOCH: Epoch = Epoch { loss: 0, number: 1 };

// The transaction of a number.
fn txn(n: u64) -> TxnId {
    TxnId { epoch: EPOCH, n }
}

// The key `apples` of the dictionary `stock`.
fn apples(alloc: Global) -> Result<LockName, NoMemory> {
    Ok(LockName::Key(
        Name::from_slice(alloc, b"stock")?,
        Bytes::from_slice(alloc, b"apples")?,
    ))
}

// A transaction asks for a lock. Writes whether it has it then, or who holds one that stands against it.
fn ask<W: Write>(
    out: &mut W,
    locks: &mut Locks,
    n: u64,
    name: &LockName,
    mode: LockMode,
) -> Result<()> {
    match locks.take(txn(n), name, mode) {
        Ok(()) => writeln!(out, "{n} has {mode:?}")?,
        Err(TakeError::Held { by }) => writeln!(out, "{n} asks for {mode:?}: held by {}", by.n)?,
        Err(TakeError::NoMemory) => return Err(NoMemory.into()),
    }
    Ok(())
}

// A reader keeps a writer away, until its locks go.
fn meet<W: Write>(out: &mut W, locks: &mut Locks, name: &LockName) -> Result<()> {
    ask(out, locks, 1, name, LockMode::Shared)?;
    ask(out, locks, 2, name, LockMode::Exclusive)?;
    locks.release(txn(1));
    ask(out, locks, 2, name, LockMode::Exclusive)
}

/// Two transactions meet at one key of a new lock table.
pub fn take_turns<W: Write>(alloc: Global, out: &mut W) -> Result<()> {
    let name = apples(alloc)?;
    let mut locks = Locks::new(alloc);
    meet(out, &mut locks, &name)
}
