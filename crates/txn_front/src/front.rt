ghost use Rattle.std.specs.Prelude.{◌≡◌, ◌+◌, ◌<◌, ◌^◌, Some, IfOk, OnOk};
ghost use Rattle.std.specs.Option.{option_map, option_copied};
ghost use Rattle.events.specs.Answers as answers;
ghost use Rattle.events.specs.Calls.{txn_named};
ghost use Rattle.events.specs.declared.answer.Answer.TheVariants as says;
ghost use Rattle.txn_front.specs.Front as spec;
ghost use Rattle.txn_front.specs.Front.{AreAlike, IsOver};

use crate::asking::{answer, plain};
use crate::going::Going;
use coll_model::{Ops, State};
use events::{Answer, Call, Reply};
use key_locks::Locks;
use rc_base::{Epoch, Lsn, NoMemory, TxnId};
use std::alloc::Global;
use std::collections::BTreeMap;
use std::marker::Model;

/// The transactions that go on at a primary, and their locks. Contracts see what `Fronted` tells. Whether grants of
/// different names stand in one order or another is left open.
#[derive(Drop)]
pub struct Front {
    alloc: Global,
    epoch: Epoch,
    begins: u64,
    live: BTreeMap<u64, Going>,
    locks: Locks,
}

impl Model for Front {
    ghost use Rattle.txn_front.specs.Front.{Fronted};

    ghost Value = { Fronted };

    ghost view = { λ f. record { epoch = f.epoch; begins = f.begins; live = f.live.entries; grants = f.locks } };
}

impl Front {
    /// Nothing goes on, and nothing is locked. It takes no memory.
    pub fn new(alloc: Global, epoch: Epoch) -> Front
        ensures { result ≡ spec.nothing epoch }
    {
        Front {
            alloc,
            epoch,
            begins: 0,
            live: BTreeMap::new(alloc),
            locks: Locks::new(alloc),
        }
    }

    /// A client's call, over the state that the primary shows: to a begin the transaction that begins. A call of a transaction
    /// that goes on takes its locks, one after another, and is answered `locked` by the first holder that stands against one;
    /// else it is answered by what the transaction sees, which is the state with its own operations on it, and what it does
    /// is noted. The commit of a transaction that goes on has no answer of its own. A commit and an abort change nothing yet.
    ///
    /// # Errors
    /// `NoMemory`. Locks that the call was granted may stay then, and the owner drops the front.
    pub fn call(&mut self, state: &State, call: &Call) -> Result<Option<Reply>, NoMemory>
        // Front and state stand as the calls of this front left them.
        requires over { IsOver self.old state.now }

        requires counted { self.old.begins + 1 < 2 ^ 64 }
        ensures told { IfOk result (λ reply. reply ≡ spec.told self.old state.now call.now) }
        ensures kept { OnOk result (AreAlike self.new (spec.called self.old state.now call.now)) }
        ensures over { OnOk result (IsOver self.new state.now) }
    {
        match call.txn() {
            None => self.begin(),
            Some(txn) => self.asked(state, txn, call),
        }
    }

    // One more transaction begins.
    fn begin(&mut self) -> Result<Option<Reply>, NoMemory>
        requires { self.old.begins + 1 < 2 ^ 64 }
        ensures told { IfOk result (λ reply. reply ≡ Some (answers.plain (says.Txn (spec.txn_at self.old (self.old.begins + 1))))) }
        ensures kept { OnOk result (self.new ≡ spec.begun self.old) }
    {
        let n = self.begins + 1;
        self.live.insert(n, Going::new(self.alloc))?;
        self.begins = n;
        let txn = TxnId {
            epoch: self.epoch,
            n,
        };
        Ok(Some(plain(Answer::Txn(txn))))
    }

    // A call that names the transaction.
    fn asked(&mut self, state: &State, txn: TxnId, call: &Call) -> Result<Option<Reply>, NoMemory>
        requires named { txn_named call.now ≡ Some txn }
        requires over { IsOver self.old state.now }
        ensures told { IfOk result (λ reply. reply ≡ spec.told self.old state.now call.now) }
        ensures kept { OnOk result (AreAlike self.new (spec.called self.old state.now call.now)) }
    {
        if txn.epoch != self.epoch {
            return Ok(Some(plain(Answer::Ended(txn))));
        }
        let Some(going) = self.live.get_mut(&txn.n) else {
            return Ok(Some(plain(Answer::Ended(txn))));
        };
        let reply = answer(going, &mut self.locks, state, txn, call)?;
        going.note(&reply)?;
        Ok(reply)
    }

    /// What goes on under this name.
    pub fn going(&self, txn: TxnId) -> Option<&Going>
        ensures { option_copied result ≡ spec.going_of self.now txn }
    {
        if txn.epoch == self.epoch {
            self.live.get(&txn.n)
        } else {
            None
        }
    }

    /// The last record of the transaction stands at this position. It takes no memory.
    #[tactic(auto, using(crate::proofs::Entries::entry_there))]
    pub fn logged(&mut self, txn: TxnId, lsn: Lsn)
        ensures { self.new ≡ spec.logged self.old txn lsn }
    {
        if txn.epoch == self.epoch {
            if let Some(going) = self.live.get_mut(&txn.n) {
                going.set_last(lsn);
            }
        }
    }

    /// The transaction goes on no more, and its locks go; what it has done is given back. It takes no memory.
    pub fn end(&mut self, txn: TxnId) -> Option<Ops>
        ensures done { result ≡ option_map (λ going. going.ops) (spec.going_of self.old txn) }
        ensures kept { AreAlike self.new (spec.ended self.old txn) }
    {
        if txn.epoch != self.epoch {
            return None;
        }
        let going = self.live.remove(&txn.n)?;
        self.locks.release(txn);
        Some(going.into_ops())
    }

    /// How many transactions it began.
    pub fn begins(&self) -> u64
        ensures { result ≡ self.now.begins }
    {
        self.begins
    }
}
