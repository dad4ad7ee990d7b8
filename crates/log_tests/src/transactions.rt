ghost use Rattle.std.specs.Prelude.{◌≤◌, IfOk};
ghost use Rattle.std.specs.List.{AllByRecursion};
ghost use Rattle.txn_table.specs.Tables.{IsBelow, RiseByTxn};

use coll_model::Op;
use log_records::{LoggedOps, Pending, PendingTxn, Record};
use rc_base::{Epoch, Lsn, Name, TxnId};
use std::alloc::Global;
use std::marker::Model;
use std::process::Abort;
use std::test::*;
use txn_table::{Committed, Table, TableError};

// A record of a log: transaction n of epoch 0.1 begins, operates on the collection with this name of one letter, or
// ends; a Barrier; an epoch. The second number is the position of the transaction's record before.
#[derive(Clone, Copy)]
enum Step {
    Begin(u64),
    Act(u64, u64, u8),
    End(u64, u64, bool),
    Hold,
    Epoch,
}

// What is done with a table, each at a position.
#[derive(Clone, Copy)]
enum Row {
    // A record is taken, and this commits with it: the digit of a transaction and the letters of its operations.
    Take(u64, Step, &'static str),
    // A record is refused: the position that it names, and the one that it should.
    Refuse(u64, Step, u64, u64),
    // What stands above it is taken back.
    Cut(u64),
    // The floor is raised to it.
    Forget(u64),
    // What is pending at it.
    Pending(u64, &'static str),
}

// Transactions 1 and 2 take turns, and 2 commits first. Then 3 aborts.
const TURNS: [Row; 11] = [
    Row::Take(1, Step::Begin(1), ""),
    Row::Take(2, Step::Begin(2), ""),
    Row::Take(3, Step::Act(1, 1, b'a'), ""),
    Row::Take(4, Step::Act(2, 2, b'b'), ""),
    Row::Take(5, Step::Act(1, 3, b'c'), ""),
    Row::Take(6, Step::End(2, 4, true), "2b"),
    Row::Take(7, Step::Hold, ""),
    Row::Take(8, Step::End(1, 5, true), "1ac"),
    Row::Take(9, Step::Begin(3), ""),
    Row::Take(10, Step::Act(3, 9, b'd'), ""),
    Row::Take(11, Step::End(3, 10, false), ""),
];

// Transaction 2 begins before 1 and commits; an epoch ends 1.
const EPOCH: &[Row] = &[
    Row::Take(1, Step::Begin(2), ""),
    Row::Take(2, Step::Act(2, 1, b'a'), ""),
    Row::Take(3, Step::Begin(1), ""),
    Row::Take(4, Step::Act(1, 3, b'b'), ""),
    Row::Take(5, Step::End(2, 2, true), "2a"),
    Row::Take(6, Step::Epoch, ""),
];

// Transaction 1 is pending, and 2 has ended.
const LINKS: &[Row] = &[
    Row::Take(1, Step::Begin(1), ""),
    Row::Take(2, Step::Act(1, 1, b'a'), ""),
    Row::Take(3, Step::Begin(2), ""),
    Row::Take(4, Step::End(2, 3, false), ""),
];

fn txn(n: u64) -> TxnId {
    TxnId {
        epoch: Epoch { loss: 0, number: 1 },
        n,
    }
}

fn named(alloc: Global, name: u8) -> Result<Op, Fail> {
    Ok(Op::Unmake(Name::from_slice(alloc, &[name])?))
}

fn record(alloc: Global, step: Step) -> Result<Record, Fail> {
    match step {
        Step::Begin(n) => Ok(Record::Begin { txn: txn(n) }),
        Step::Act(n, prev, name) => Ok(Record::Operation {
            txn: txn(n),
            prev: Lsn(prev),
            op: named(alloc, name)?,
        }),
        Step::End(n, prev, committed) => Ok(Record::End {
            txn: txn(n),
            prev: Lsn(prev),
            committed,
        }),
        Step::Hold => Ok(Record::Barrier { stable: Lsn(0) }),
        Step::Epoch => Ok(Record::EpochStart {
            epoch: Epoch { loss: 0, number: 2 },
        }),
    }
}

// The letter of an operation's name.
fn letter(op: &Op) -> u8 {
    match op {
        Op::Unmake(name) => name.as_slice().first().copied().unwrap_or(b'-'),
        _ => b'?',
    }
}

// The digit of a transaction.
fn digit(txn: TxnId) -> u8 {
    if txn.n == 1 { b'1' } else { b'2' }
}

// The digit of a transaction that commits, and the letters of its operations.
fn commit_text(alloc: Global, commit: &Option<Committed>) -> Result<Vec<u8>, Fail> {
    let mut text = Vec::new(alloc);
    if let Some(commit) = commit {
        text.push(digit(commit.txn))?;
        for op in commit.ops.as_slice() {
            text.push(letter(op))?;
        }
    }
    Ok(text)
}

// Those of the transactions that are pending.
fn pending_text(alloc: Global, pending: &Pending) -> Result<Vec<u8>, Fail> {
    let mut text = Vec::new(alloc);
    for open in pending.as_slice() {
        text.push(digit(open.txn))?;
        for logged in open.ops.as_slice() {
            text.push(letter(&logged.1))?;
        }
    }
    Ok(text)
}

// A table, and the positions of its floor and of the last record that it took.
#[derive(Drop)]
struct Played {
    table: Table,
    floor: u64,
    last: u64,
}

impl Model for Played {
    ghost use Rattle.std.specs.Prelude.{◌≡◌};
    ghost use Rattle.txn_table.specs.Tables.{State};

    ghost Value = { State };

    ghost view = { λ p. p.table };

    ghost invariant = { λ p. (p.table.floor.0 ≡ p.floor) × (p.table.last.0 ≡ p.last) };
}

impl Played {
    // Of an empty log.
    fn empty(alloc: Global) -> Result<Played, Fail> {
        Ok(Played {
            table: Table::new(alloc, Lsn(0), &Pending::new(alloc))?,
            floor: 0,
            last: 0,
        })
    }

    // Of a log whose base, at position 5, has a transaction that began at 3.
    fn based(alloc: Global) -> Result<Played, Fail> {
        let pending = base(alloc)?;
        Ok(Played {
            table: Table::new(alloc, Lsn(5), &pending)?,
            floor: 5,
            last: 5,
        })
    }

    fn take(
        &mut self,
        rt: &impl Abort,
        alloc: Global,
        lsn: u64,
        step: Step,
        commits: &str,
    ) -> Result<(), Fail> {
        assert!(rt; self.last < lsn);
        let body = record(alloc, step)?;
        let commit = self.table.take(Lsn(lsn), &body)?;
        self.last = lsn;
        let text = commit_text(alloc, &commit)?;
        assert_eq!(rt; text.as_slice(), commits.as_bytes(), "{lsn}");
        Ok(())
    }

    fn refuse(
        &mut self,
        rt: &impl Abort,
        alloc: Global,
        lsn: u64,
        step: Step,
        fault: TableError,
    ) -> Result<(), Fail> {
        assert!(rt; self.last < lsn);
        let body = record(alloc, step)?;
        match self.table.take(Lsn(lsn), &body) {
            Ok(_) => {
                self.last = lsn;
                Err(Fail::new("it was taken"))
            }
            Err(error) => {
                assert_eq!(rt; error, fault);
                Ok(())
            }
        }
    }

    fn cut(&mut self, rt: &impl Abort, lsn: u64) {
        assert!(rt; self.floor <= lsn);
        self.table.cut_to(Lsn(lsn));
        if lsn < self.last {
            self.last = lsn;
        }
    }

    fn forget(&mut self, rt: &impl Abort, lsn: u64) {
        assert!(rt; self.floor < lsn);
        assert!(rt; lsn <= self.last);
        self.table.forget_below(Lsn(lsn));
        self.floor = lsn;
    }

    fn pending(&self, rt: &impl Abort, alloc: Global, lsn: u64, wanted: &str) -> Result<(), Fail> {
        assert!(rt; self.floor <= lsn);
        assert!(rt; lsn <= self.last);
        let pending = self.table.pending(Lsn(lsn))?;
        let text = pending_text(alloc, &pending)?;
        assert_eq!(rt; text.as_slice(), wanted.as_bytes(), "{lsn}");
        Ok(())
    }
}

// The transactions pending at the base, whose operations are put in by hand.
fn base(alloc: Global) -> Result<Pending, Fail>
    ensures by_txn { IfOk result (λ p. RiseByTxn p) }
    ensures below { IfOk result (λ p. AllByRecursion (IsBelow 5) p) }
{
    let mut ops = LoggedOps::new(alloc);
    ops.push(Lsn(4), named(alloc, b'a')?)?;
    let mut pending = Pending::new(alloc);
    pending.push(PendingTxn {
        txn: txn(1),
        begin: Lsn(3),
        ops,
    })?;
    Ok(pending)
}

fn play(rt: &impl Abort, alloc: Global, played: &mut Played, row: Row) -> Result<(), Fail> {
    match row {
        Row::Take(lsn, step, commits) => played.take(rt, alloc, lsn, step, commits),
        Row::Refuse(lsn, step, prev, wanted) => {
            let fault = TableError::BadLink {
                lsn: Lsn(lsn),
                prev: Lsn(prev),
                wanted: Lsn(wanted),
            };
            played.refuse(rt, alloc, lsn, step, fault)
        }
        Row::Cut(lsn) => {
            played.cut(rt, lsn);
            Ok(())
        }
        Row::Forget(lsn) => {
            played.forget(rt, lsn);
            Ok(())
        }
        Row::Pending(lsn, wanted) => played.pending(rt, alloc, lsn, wanted),
    }
}

fn play_all(rt: &impl Abort, alloc: Global, played: &mut Played, rows: &[Row]) -> Result<(), Fail> {
    for row in rows {
        play(rt, alloc, played, *row)?;
    }
    Ok(())
}

// The records of an empty log, and then what is done.
fn run(rt: &impl Abort, alloc: Global, log: &[Row], rows: &[Row]) -> Result<(), Fail> {
    let mut played = Played::empty(alloc)?;
    play_all(rt, alloc, &mut played, log)?;
    play_all(rt, alloc, &mut played, rows)
}

fn run_based(rt: &impl Abort, alloc: Global, rows: &[Row]) -> Result<(), Fail> {
    let mut played = Played::based(alloc)?;
    play_all(rt, alloc, &mut played, rows)
}

// The log of turns, cut at a position and taken again from there.
fn run_again(rt: &impl Abort, alloc: Global, at: usize) -> Result<(), Fail>
    requires { at ≤ 11 }
{
    let mut played = Played::empty(alloc)?;
    play_all(rt, alloc, &mut played, &TURNS)?;
    played.cut(rt, at as u64);
    play_all(rt, alloc, &mut played, &TURNS[at..])
}

#[test]
fn cut_and_taken_again(rt: HostRuntime) -> Result<(), Fail> {
    for at in 0..12usize {
        run_again(&rt, rt.alloc(), at)?;
    }
    Ok(())
}

#[test]
fn pending_at_each_position(rt: HostRuntime) -> Result<(), Fail> {
    for (lsn, text) in [
        (1, "2"),
        (2, "2a"),
        (3, "12a"),
        (4, "1b2a"),
        (5, "1b"),
        (6, ""),
    ] {
        let rows = [
            Row::Pending(lsn, text),
            Row::Forget(lsn),
            Row::Pending(lsn, text),
        ];
        run(&rt, rt.alloc(), EPOCH, &rows)?;
    }
    Ok(())
}

// What an epoch ended is pending again.
const ENDED_AGAIN: &[Row] = &[Row::Cut(5), Row::Take(6, Step::End(1, 4, true), "1b")];

#[test]
fn an_epoch_taken_back(rt: HostRuntime) -> Result<(), Fail> {
    run(&rt, rt.alloc(), EPOCH, ENDED_AGAIN)
}

// A transaction begins once.
const BEGINS: &[Row] = &[
    Row::Refuse(5, Step::Begin(1), 0, 2),
    Row::Refuse(5, Step::Begin(2), 0, 4),
];

// A transaction that acts or ends is pending.
const NOT_PENDING: &[Row] = &[
    Row::Refuse(5, Step::Act(3, 4, b'a'), 4, 0),
    Row::Refuse(5, Step::Act(2, 4, b'a'), 4, 4),
    Row::Refuse(5, Step::End(4, 0, true), 0, 0),
];

// A link names the last record.
const OTHER_LINKS: &[Row] = &[
    Row::Refuse(5, Step::Act(1, 1, b'a'), 1, 2),
    Row::Refuse(5, Step::End(1, 3, true), 3, 2),
    Row::Take(5, Step::End(1, 2, true), "1a"),
];

#[test]
fn links(rt: HostRuntime) -> Result<(), Fail> {
    for rows in [BEGINS, NOT_PENDING, OTHER_LINKS] {
        run(&rt, rt.alloc(), LINKS, rows)?;
    }
    Ok(())
}

const PENDING_AT_THE_BASE: &[Row] = &[
    Row::Take(6, Step::Act(1, 4, b'b'), ""),
    Row::Take(7, Step::End(1, 6, true), "1ab"),
];

const BEGUN_AT_THE_BASE: &[Row] = &[Row::Refuse(6, Step::Begin(1), 0, 4)];

// What ended below the floor is forgotten.
const FORGOTTEN: &[Row] = &[
    Row::Take(6, Step::End(1, 4, false), ""),
    Row::Forget(6),
    Row::Take(7, Step::Begin(1), ""),
];

#[test]
fn from_a_base(rt: HostRuntime) -> Result<(), Fail> {
    for rows in [PENDING_AT_THE_BASE, BEGUN_AT_THE_BASE, FORGOTTEN] {
        run_based(&rt, rt.alloc(), rows)?;
    }
    Ok(())
}
