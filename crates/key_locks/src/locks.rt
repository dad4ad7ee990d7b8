ghost use Rattle.std.specs.Prelude.{◌≡◌, [], OnOk, OnErr, IsErrOf, Some, None, Err};

use crate::error::TakeError;
use crate::held::Held;
use crate::lock_mode::LockMode;
use crate::lock_name::LockName;
use crate::rows::Rows;
use rc_base::TxnId;
use std::alloc::Global;
use std::marker::Model;

/// The lock table. Contracts see the list of its grants: one for each holder of a name, in the strongest mode that it was
/// granted, and for each name in the order in which its holders first got it. What the order between grants of different
/// names is, is left open: lists that are alike answer each request alike, and stay alike.
#[derive(Drop)]
pub struct Locks {
    rows: Rows,
    held: Held,
}

impl Model for Locks {
    ghost use Rattle.std.specs.Prelude.{List};
    ghost use Rattle.key_locks.specs.Grants.{Grant};
    ghost use Rattle.key_locks.specs.Table.{all_grants, IsTable};

    ghost Value = { List Grant };

    ghost view = { λ l. all_grants l.rows };

    ghost invariant = { λ l. IsTable l.rows l.held };
}

impl Locks {
    ghost use Rattle.rc_base.specs.declared.ids.TxnId.{TxnId as Txn};
    ghost use Rattle.key_locks.specs.declared.error.TakeError.TheVariants.{Held as IsHeld};
    ghost use Rattle.key_locks.specs.Grants.{conflict, granted, released, mode_in, Alike};

    /// Nothing is granted. It takes no memory.
    pub fn new(alloc: Global) -> Locks
        ensures { result ≡ [] }
    {
        Locks {
            rows: Rows::new(alloc),
            held: Held::new(alloc),
        }
    }

    /// Asks for a name. A granted `Shared` allows another transaction's request for `Shared` or `Update`; a granted
    /// `Update` or `Exclusive` allows nothing to another; `Exclusive` needs no other holder. This is tested also where
    /// the transaction holds the name already. After Ok it holds the name in the stronger of its old mode and this one,
    /// a new holder stands last, and all other grants stay.
    ///
    /// # Errors
    /// `Held` exactly where another holder's grant doesn't allow the request, with the first such holder in order of
    /// grant; `NoMemory` where it is out of memory. After either nothing changed.
    pub fn take(&mut self, txn: TxnId, name: &LockName, mode: LockMode) -> Result<(), TakeError>
        ensures granted { OnOk result (Alike self.new (granted self.old txn name.now mode)) }
        ensures free { OnOk result (conflict self.old txn name.now mode ≡ None) }
        ensures held { (by : Txn) → IsErrOf result (IsHeld by) → conflict self.old txn name.now mode ≡ Some by }
        ensures held_only { (by : Txn) → conflict self.old txn name.now mode ≡ Some by → result ≡ Err (IsHeld by) }
        ensures err { OnErr result (self.new ≡ self.old) }
    {
        if let Some(by) = self.rows.conflict(txn, name, mode) {
            return Err(TakeError::Held { by });
        }
        if self.rows.mode_of(txn, name).is_none() {
            self.held.note(txn, name)?;
        }
        self.rows.grant(txn, name, mode)?;
        Ok(())
    }

    /// The transaction's locks go, and all others stay. It takes no memory.
    pub fn release(&mut self, txn: TxnId)
        ensures { Alike self.new (released self.old txn) }
    {
        let names = self.held.remove(txn);
        self.rows.leave_all(txn, names.as_slice());
    }

    /// The mode in which the transaction holds the name. It takes no memory.
    pub fn mode_of(&self, txn: TxnId, name: &LockName) -> Option<LockMode>
        ensures { result ≡ mode_in self.now txn name.now }
    {
        self.rows.mode_of(txn, name)
    }
}
