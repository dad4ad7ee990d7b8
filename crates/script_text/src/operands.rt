ghost use Rattle.std.specs.Prelude.{◌≡◌, ◌∷◌, [], List, codes, decimal, IsTrue, IfOk, IfSome, IfNone, ℕ};
ghost use Rattle.rc_base.specs.declared.ids.Epoch.{Epoch as EpochValue};
ghost use Rattle.rc_base.specs.declared.ids.TxnId.{TxnId as TxnValue};
ghost use Rattle.rc_base.specs.Names as names;
ghost use Rattle.coll_model.specs.declared.op.Kind.TheVariants as kinds;
ghost use Rattle.script_text.specs.Letters as letters;
ghost use Rattle.script_text.specs.Sentence.{IsBuiltEpoch, IsBuiltTxn, epoch_text, txn_text, members_text};
ghost use Rattle.coll_model.specs.Rows.{kind_word};

use crate::words::{epoch, key_of, name_of, replica, txn};
use coll_model::Kind;
use events::Replicas;
use rc_base::{Bytes, Epoch, Name, NoMemory, ReplicaId, TxnId};
use std::alloc::{AllocError, Global};

// Replica 0: there is no other so far.
pub(crate) fn built_replica(word: &[u8]) -> Option<ReplicaId>
    ensures some { IfSome result (λ r. (r ≡ 0) × (word.now ≡ decimal r)) }
    ensures none { IfNone result (word.now ≡ decimal 0 → ⊥) }
{
    let r = replica(word)?;
    if r.number() == 0 { Some(r) } else { None }
}

// The members: replica 0 alone so far.
pub(crate) fn built_members(alloc: Global, word: &[u8]) -> Result<Option<Replicas>, NoMemory>
    ensures some { IfOk result (λ read. IfSome read (λ members.
        (members ≡ 0 ∷ []) × (word.now ≡ members_text members))) }
    ensures none { IfOk result (λ read. IfNone read (word.now ≡ members_text (0 ∷ []) → ⊥)) }
{
    let Some(member) = built_replica(word) else {
        return Ok(None);
    };
    let mut members = Replicas::new(alloc);
    members.push(member)?;
    Ok(Some(members))
}

// An epoch before the first declared loss: there is no other so far.
pub(crate) fn built_epoch(alloc: Global, word: &[u8]) -> Result<Option<Epoch>, AllocError>
    ensures some { IfOk result (λ read. IfSome read (λ e. IsBuiltEpoch e × (word.now ≡ epoch_text e))) }
    ensures none { IfOk result (λ read. IfNone read ((e : EpochValue) → IsBuiltEpoch e → word.now ≡ epoch_text e → ⊥)) }
{
    match epoch(alloc, word)? {
        Some(e) if e.loss == 0 => Ok(Some(e)),
        _ => Ok(None),
    }
}

// A transaction of an epoch before the first declared loss: there is no other so far.
pub(crate) fn built_txn(alloc: Global, word: &[u8]) -> Result<Option<TxnId>, AllocError>
    ensures some { IfOk result (λ read. IfSome read (λ t. IsBuiltTxn t × (word.now ≡ txn_text t))) }
    ensures none { IfOk result (λ read. IfNone read ((t : TxnValue) → IsBuiltTxn t → word.now ≡ txn_text t → ⊥)) }
{
    match txn(alloc, word)? {
        Some(t) if t.epoch.loss == 0 => Ok(Some(t)),
        _ => Ok(None),
    }
}

// The kind `dict`: there is no other so far.
pub(crate) fn built_kind(word: &[u8]) -> Option<Kind>
    ensures some { IfSome result (λ kind. (kind ≡ kinds.Dict) × (word.now ≡ kind_word kind)) }
    ensures none { IfNone result (word.now ≡ codes "dict" → ⊥) }
{
    if word == b"dict".as_slice() {
        Some(Kind::Dict)
    } else {
        None
    }
}

// `T NAME`, the operands of each call in a collection.
pub(crate) fn at_name(
    alloc: Global,
    t: &[u8],
    name: &[u8],
) -> Result<Option<(TxnId, Name)>, NoMemory>
    ensures some { IfOk result (λ read. IfSome read (λ at.
        IsBuiltTxn at.0 × IsTrue (names.is_name at.1) × (t.now ≡ txn_text at.0) × (name.now ≡ at.1))) }
    ensures none { IfOk result (λ read. IfNone read ((u : TxnValue) → IsBuiltTxn u → t.now ≡ txn_text u
        → IsTrue (names.is_name name.now) → ⊥)) }
{
    let (Some(t), Some(name)) = (built_txn(alloc, t)?, name_of(alloc, name)?) else {
        return Ok(None);
    };
    Ok(Some((t, name)))
}

// `T NAME KEY`, the operands of each call at a key of a dictionary.
pub(crate) fn at_key(
    alloc: Global,
    t: &[u8],
    name: &[u8],
    key: &[u8],
) -> Result<Option<(TxnId, Name, Bytes)>, NoMemory>
    ensures some { IfOk result (λ read. IfSome read (λ at.
        IsBuiltTxn at.0 × IsTrue (names.is_name at.1) × IsTrue (letters.is_key_word at.2)
        × (t.now ≡ txn_text at.0) × (name.now ≡ at.1) × (key.now ≡ at.2))) }
    ensures none { IfOk result (λ read. IfNone read ((u : TxnValue) → IsBuiltTxn u → t.now ≡ txn_text u
        → IsTrue (names.is_name name.now) → IsTrue (letters.is_key_word key.now) → ⊥)) }
{
    let (Some((t, name)), Some(key)) = (at_name(alloc, t, name)?, key_of(alloc, key)?) else {
        return Ok(None);
    };
    Ok(Some((t, name, key)))
}
