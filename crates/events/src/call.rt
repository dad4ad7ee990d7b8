ghost use Rattle.std.specs.Prelude.{◌≡◌};
ghost use Rattle.events.specs.Calls as spec;

use coll_model::Kind;
use rc_base::{Bytes, Name, TxnId};
use std::alloc::AllocError;

/// What a client asks of a replica R.
#[derive(Drop)]
pub enum Call {
    /// `begin R`: begins a transaction.
    Begin,
    /// `make R T NAME KIND`: makes a collection, where T sees none of this name.
    Make(TxnId, Name, Kind),
    /// A call of T on a key of the dictionary of this name.
    OnKey(TxnId, Name, Bytes, KeyCall),
    /// `commit R T`: asks to commit T.
    Commit(TxnId),
    /// `abort R T`: ends T without a trace.
    Abort(TxnId),
}

/// What is asked of a key of a dictionary.
#[derive(Drop)]
pub enum KeyCall {
    /// `get R T NAME KEY`: its value.
    Get,
    /// `getu R T NAME KEY`: the same, and no other transaction may ask to change it after T.
    GetForUpdate,
    /// `set R T NAME KEY VALUE`: gives it the value.
    Set(Bytes),
    /// `add R T NAME KEY VALUE`: gives it the value, where it is absent.
    Add(Bytes),
    /// `del R T NAME KEY`: takes it out, where it is there.
    Delete,
}

impl Call {
    /// The transaction that the call names: none for a begin.
    pub fn txn(&self) -> Option<TxnId>
        ensures { result ≡ spec.txn_named self.now }
    {
        match self {
            Call::Begin => None,
            Call::Make(txn, ..) | Call::OnKey(txn, ..) | Call::Commit(txn) | Call::Abort(txn) =>
                Some(*txn),
        }
    }
}

impl Clone for Call {
    ghost is_clone = { λ x y. y ≡ x };

    fn clone(&self) -> Result<Call, AllocError> {
        Ok(match self {
            Call::Begin => Call::Begin,
            Call::Make(txn, name, kind) => Call::Make(*txn, name.clone()?, *kind),
            Call::OnKey(txn, name, key, call) => {
                Call::OnKey(*txn, name.clone()?, key.clone()?, call.clone()?)
            }
            Call::Commit(txn) => Call::Commit(*txn),
            Call::Abort(txn) => Call::Abort(*txn),
        })
    }
}

impl Clone for KeyCall {
    ghost is_clone = { λ x y. y ≡ x };

    fn clone(&self) -> Result<KeyCall, AllocError> {
        Ok(match self {
            KeyCall::Get => KeyCall::Get,
            KeyCall::GetForUpdate => KeyCall::GetForUpdate,
            KeyCall::Set(value) => KeyCall::Set(value.clone()?),
            KeyCall::Add(value) => KeyCall::Add(value.clone()?),
            KeyCall::Delete => KeyCall::Delete,
        })
    }
}
