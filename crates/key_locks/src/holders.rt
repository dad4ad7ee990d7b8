ghost use Rattle.std.specs.Prelude.{◌≡◌, ◌↔◌, [], OnOk, OnErr, IsTrue, find, position};
ghost use Rattle.std.specs.Option.{option_map};

use crate::lock_mode::LockMode;
use rc_base::{NoMemory, TxnId};
use std::alloc::Global;
use std::marker::Model;

/// A transaction that holds a name, and the strongest mode that it was granted.
#[derive(Clone, Copy, PartialEq, Eq)]
pub struct Holder {
    pub txn: TxnId,
    pub mode: LockMode,
}

// The holders of one name, in the order in which each first got it. Contracts see the list of them.
#[derive(Drop)]
pub struct HolderList {
    holders: Vec<Holder>,
}

impl Model for HolderList {
    ghost use Rattle.std.specs.Prelude.{List};
    ghost use Rattle.key_locks.specs.declared.holders.Holder.{Holder};

    ghost Value = { List Holder };

    ghost view = { λ l. l.holders.items };
}

impl HolderList {
    ghost use Rattle.key_locks.specs.Grants.{is_holder, stands_against};
    ghost use Rattle.key_locks.specs.Table.{granted_in, others};

    pub fn new(alloc: Global) -> HolderList
        ensures { result ≡ [] }
    {
        HolderList {
            holders: Vec::new(alloc),
        }
    }

    pub fn is_empty(&self) -> bool
        ensures { IsTrue result ↔ (self.now ≡ []) }
    {
        self.holders.is_empty()
    }

    // The first that stands against the request.
    pub fn conflict(&self, txn: TxnId, mode: LockMode) -> Option<TxnId>
        ensures { result ≡ option_map (λ h. h.txn) (find (stands_against txn mode) self.now) }
    {
        self.holders
            .iter()
            .find(|holder| txn != holder.txn && !holder.mode.allows(mode))
            .map(|holder| holder.txn)
    }

    pub fn mode_of(&self, txn: TxnId) -> Option<LockMode>
        ensures { result ≡ option_map (λ h. h.mode) (find (is_holder txn) self.now) }
    {
        self.holders
            .iter()
            .find(|holder| txn == holder.txn)
            .map(|holder| holder.mode)
    }

    pub fn grant(&mut self, txn: TxnId, mode: LockMode) -> Result<(), NoMemory>
        ensures ok { OnOk result (self.new ≡ granted_in self.old txn mode) }
        ensures err { OnErr result (self.new ≡ self.old) }
    {
        match self.place_of(txn) {
            Some(place) => {
                let holder = &mut self.holders[place];
                holder.mode = holder.mode.stronger(mode);
            }
            None => self.holders.push(Holder { txn, mode })?,
        }
        Ok(())
    }

    fn place_of(&self, txn: TxnId) -> Option<usize>
        ensures { result ≡ position (is_holder txn) self.now }
    {
        self.holders.iter().position(|holder| txn == holder.txn)
    }

    pub fn leave(&mut self, txn: TxnId)
        ensures { self.new ≡ others txn self.old }
    {
        self.holders.retain(|holder| txn != holder.txn);
    }
}
