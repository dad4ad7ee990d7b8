ghost use Rattle.std.specs.Prelude.{◌≡◌, [], ◌∷◌, ◌++◌, OnOk, OnErr};

use crate::lock_name::LockName;
use indexmap::IndexMap;
use rc_base::{NoMemory, Seq, TxnId};
use std::alloc::Global;
use std::hash::{Hash, Hasher};
use std::marker::Model;

// A transaction as a key of a table.
#[derive(Clone, Copy, Drop)]
struct Asker {
    txn: TxnId,
}

impl Model for Asker {
    ghost use Rattle.rc_base.specs.declared.ids.TxnId.{TxnId};

    ghost Value = { TxnId };

    ghost view = { λ a. a.txn };

    ghost inverse = { λ t. record { txn = t } };
}

impl PartialEq for Asker {
    ghost use Rattle.rc_base.specs.Ids.{is_txn};
    ghost use Rattle.std.specs.Cmp.{partial_equiv_from_equiv};
    ghost use Rattle.rc_base.proofs.SameIds.{is_txn_equivalence};

    ghost eq = { is_txn };

    ghost laws = { partial_equiv_from_equiv is_txn_equivalence };

    fn eq(&self, other: &Asker) -> bool {
        self.txn == other.txn
    }
}

impl Eq for Asker {
    ghost use Rattle.rc_base.proofs.SameIds.{is_txn_equivalence};

    ghost laws = { is_txn_equivalence };
}

impl Hash for Asker {
    ghost use Rattle.key_locks.specs.Equal.{same_txns_alike};

    ghost hash_input = { ⟦<TxnId as Hash>⟧.hash_input };

    ghost respects_eq = { same_txns_alike ⟦<TxnId as Hash>⟧.hash_input };

    fn hash<H: Hasher>(&self, state: &mut H) {
        self.txn.hash(state);
    }
}

// Names in order.
pub type NameList = Seq<LockName>;

// For each transaction the names that it holds, so that its locks are found when it ends. Contracts see the list of
// (transaction, names).
#[derive(Drop)]
pub struct Held {
    names: IndexMap<Asker, NameList>,
    alloc: Global,
}

impl Model for Held {
    ghost use Rattle.std.specs.Prelude.{List};
    ghost use Rattle.rc_base.specs.declared.ids.TxnId.{TxnId};
    ghost use Rattle.key_locks.specs.declared.lock_name.LockName.{LockName};

    ghost Value = { List (TxnId × List LockName) };

    ghost view = { λ h. h.names.entries };
}

impl Held {
    ghost use Rattle.rc_base.specs.declared.ids.TxnId.{TxnId as Txn};
    ghost use Rattle.key_locks.specs.Table.{noted, NotedChanges};

    pub fn new(alloc: Global) -> Held
        ensures { result ≡ [] }
    {
        Held {
            names: IndexMap::new(alloc),
            alloc,
        }
    }

    #[tactic(auto, using(std::proofs::lemmas::Map::Steps::set_value_same))]
    pub fn note(&mut self, txn: TxnId, name: &LockName) -> Result<(), NoMemory>
        ensures ok { OnOk result (NotedChanges self.old self.new txn (noted self.old txn ++ name.now ∷ [])) }
        ensures err { OnErr result (self.new ≡ self.old) }
    {
        let name = name.clone()?;
        if let Some(names) = self.names.get_mut(&Asker { txn }) {
            return names.push(name);
        }
        let mut names = NameList::new(self.alloc);
        names.push(name)?;
        self.names.insert(Asker { txn }, names)?;
        Ok(())
    }

    // The names that were noted for the transaction, which are forgotten.
    pub fn remove(&mut self, txn: TxnId) -> NameList
        ensures names { result ≡ noted self.old txn }
        ensures forgotten { NotedChanges self.old self.new txn [] }
    {
        match self.names.swap_remove(&Asker { txn }) {
            Some(names) => names,
            None => NameList::new(self.alloc),
        }
    }
}
