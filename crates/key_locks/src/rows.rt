ghost use Rattle.std.specs.Prelude.{◌≡◌, [], OnOk, OnErr, find};
ghost use Rattle.std.specs.List.{IsDistinct};
ghost use Rattle.std.specs.Map.{keys_of};
ghost use Rattle.std.specs.Option.{option_map};
ghost use Rattle.key_locks.specs.Names.{is_name};

use crate::holders::HolderList;
use crate::lock_mode::LockMode;
use crate::lock_name::LockName;
use indexmap::IndexMap;
use rc_base::{NoMemory, TxnId};
use std::alloc::Global;
use std::marker::Model;

// The holders of each name. Contracts see the list of (name, holders), in which no name stands twice.
#[derive(Drop)]
pub struct Rows {
    rows: IndexMap<LockName, HolderList>,
    alloc: Global,
}

impl Model for Rows {
    ghost use Rattle.std.specs.Prelude.{List};
    ghost use Rattle.key_locks.specs.declared.lock_name.LockName.{LockName};
    ghost use Rattle.key_locks.specs.declared.holders.Holder.{Holder};

    ghost Value = { List (LockName × List Holder) };

    ghost view = { λ r. r.rows.entries };
}

impl Rows {
    ghost use Rattle.key_locks.specs.declared.lock_name.LockName.{LockName as Names};
    ghost use Rattle.key_locks.specs.Grants.{is_holder, stands_against};
    ghost use Rattle.key_locks.specs.Table.{row, RowChanges, RowsLeft, granted_in, others};

    pub fn new(alloc: Global) -> Rows
        ensures { result ≡ [] }
    {
        Rows {
            rows: IndexMap::new(alloc),
            alloc,
        }
    }

    // The first holder of the name that stands against the request.
    pub fn conflict(&self, txn: TxnId, name: &LockName, mode: LockMode) -> Option<TxnId>
        ensures { result ≡ option_map (λ h. h.txn) (find (stands_against txn mode) (row self.now name.now)) }
    {
        self.rows.get(name)?.conflict(txn, mode)
    }

    pub fn mode_of(&self, txn: TxnId, name: &LockName) -> Option<LockMode>
        ensures { result ≡ option_map (λ h. h.mode) (find (is_holder txn) (row self.now name.now)) }
    {
        self.rows.get(name)?.mode_of(txn)
    }

    #[tactic(auto, using(std::proofs::lemmas::Map::Steps::set_value_same))]
    pub fn grant(&mut self, txn: TxnId, name: &LockName, mode: LockMode) -> Result<(), NoMemory>
        ensures ok { OnOk result (RowChanges self.old self.new name.now (granted_in (row self.old name.now) txn mode)) }
        ensures err { OnErr result (self.new ≡ self.old) }
        ensures unique { IsDistinct is_name (keys_of self.new) }
    {
        if let Some(holders) = self.rows.get_mut(name) {
            return holders.grant(txn, mode);
        }
        let mut holders = HolderList::new(self.alloc);
        holders.grant(txn, mode)?;
        self.rows.insert(name.clone()?, holders)?;
        Ok(())
    }

    pub fn leave(&mut self, txn: TxnId, name: &LockName)
        ensures row { RowChanges self.old self.new name.now (others txn (row self.old name.now)) }
        ensures unique { IsDistinct is_name (keys_of self.new) }
    {
        if let Some(holders) = self.rows.get_mut(name) {
            holders.leave(txn);
            if holders.is_empty() {
                self.rows.swap_remove(name);
            }
        }
    }

    pub fn leave_all(&mut self, txn: TxnId, names: &[LockName])
        requires { IsDistinct is_name (keys_of self.old) }
        ensures rows { RowsLeft self.old self.new txn names.now }
        ensures unique { IsDistinct is_name (keys_of self.new) }
    {
        for name in names {
            self.leave(txn, name);
        }
    }
}
