ghost use Rattle.std.specs.Prelude.{◌≡◌, [], ◌∷◌, Some, IfOk, OnOk};
ghost use Rattle.std.specs.Option.{option_copied, option_map_or};
ghost use Rattle.coll_model.specs.declared.op.Op.TheVariants as ops;
ghost use Rattle.coll_model.specs.Effect.{folded};
ghost use Rattle.key_locks.specs.Grants.{Alike, conflict};
ghost use Rattle.key_locks.specs.declared.lock_name.LockName.TheVariants as names;
ghost use Rattle.events.specs.Answers as answers;
ghost use Rattle.events.specs.Answers.{live_reply};
ghost use Rattle.events.specs.Locking.{key_mode, locks_at, in_dictionary, taken};
ghost use Rattle.lock_laws.specs.OrderedStates.{IsOrdered};
ghost use Rattle.lock_laws.specs.OwnOperations.{AreEffective};
ghost use Rattle.lock_laws.specs.Protected.{kind_at, value_at};
ghost use Rattle.events.specs.declared.call.Call.TheVariants as CallSpec;
ghost use Rattle.txn_front.specs.OnKey as spec;

use crate::going::Going;
use coll_model::{Contents, Kind, Op, State};
use events::{Answer, Call, KeyCall, Reply};
use key_locks::{LockMode, LockName, Locks, TakeError};
use rc_base::{Bytes, Name, NoMemory, TxnId};

// The answer to a call of a transaction that goes on: by the locks that others hold, and by what it sees, which is the state
// with its own operations on it. The grants that it gets stay.
pub(crate) fn answer(
    going: &Going,
    locks: &mut Locks,
    state: &State,
    txn: TxnId,
    call: &Call,
) -> Result<Option<Reply>, NoMemory>
    requires ordered { IsOrdered state.now }
    requires effective { AreEffective state.now going.now.ops }
    ensures told { IfOk result (λ reply. reply ≡ live_reply locks.old (folded state.now going.now.ops) txn call.now) }
    ensures kept { OnOk result (Alike locks.new (taken locks.old txn (locks_at (folded state.now going.now.ops) call.now))) }
{
    match call {
        Call::Begin | Call::Commit(_) => Ok(None),
        Call::Abort(_) => Ok(Some(plain(Answer::Done))),
        Call::Make(_, name, kind) => Ok(Some(make(going, locks, state, txn, name, *kind)?)),
        Call::OnKey(_, name, key, call) => {
            Ok(Some(on_key(going, locks, state, txn, name, key, call)?))
        }
    }
}

// An answer that logs nothing.
pub(crate) fn plain(answer: Answer) -> Reply
    ensures { result ≡ answers.plain answer }
{
    Reply { answer, op: None }
}

// The answer to a make.
fn make(
    going: &Going,
    locks: &mut Locks,
    state: &State,
    txn: TxnId,
    name: &Name,
    kind: Kind,
) -> Result<Reply, NoMemory>
    requires ordered { IsOrdered state.now }
    requires effective { AreEffective state.now going.now.ops }
    ensures told { IfOk result (λ reply. Some reply ≡ live_reply locks.old (folded state.now going.now.ops) txn (CallSpec.Make txn name.now kind)) }
    ensures kept { OnOk result (Alike locks.new (taken locks.old txn (locks_at (folded state.now going.now.ops) (CallSpec.Make txn name.now kind)))) }
{
    if let Some(by) = ask_name(locks, txn, name, LockMode::Exclusive)? {
        return Ok(plain(Answer::Locked(by)));
    }
    if kind_seen(going, state, name)?.is_some() {
        return Ok(plain(Answer::False));
    }
    Ok(Reply {
        answer: Answer::True,
        op: Some(Op::Make(name.clone()?, kind)),
    })
}

// The answer to a call on a key of a dictionary.
fn on_key(
    going: &Going,
    locks: &mut Locks,
    state: &State,
    txn: TxnId,
    name: &Name,
    key: &Bytes,
    call: &KeyCall,
) -> Result<Reply, NoMemory>
    requires ordered { IsOrdered state.now }
    requires effective { AreEffective state.now going.now.ops }
    ensures told { IfOk result (λ reply. Some reply ≡ live_reply locks.old (folded state.now going.now.ops) txn (CallSpec.OnKey txn name.now key.now call.now)) }
    ensures kept { OnOk result (Alike locks.new (taken locks.old txn (locks_at (folded state.now going.now.ops) (CallSpec.OnKey txn name.now key.now call.now)))) }
{
    match enter(going, locks, state, txn, name, key, mode_of(call))? {
        Some(refusal) => Ok(plain(refusal)),
        None => keyed(name, key, call, value_seen(going, state, name, key)?),
    }
}

// Asks for the locks of a call on a key, one after another. Tells what stands in its way: another holder, or what is seen
// under the name.
fn enter(
    going: &Going,
    locks: &mut Locks,
    state: &State,
    txn: TxnId,
    name: &Name,
    key: &Bytes,
    mode: LockMode,
) -> Result<Option<Answer>, NoMemory>
    requires ordered { IsOrdered state.now }
    requires effective { AreEffective state.now going.now.ops }
    ensures told { IfOk result (λ refusal. refusal ≡ spec.refusal locks.old txn name.now key.now mode (kind_at name.now (folded state.now going.now.ops))) }
    ensures kept { OnOk result (Alike locks.new (taken locks.old txn (in_dictionary name.now key.now mode (folded state.now going.now.ops)))) }
{
    if let Some(by) = ask_name(locks, txn, name, LockMode::Shared)? {
        return Ok(Some(Answer::Locked(by)));
    }
    match kind_seen(going, state, name)? {
        None => Ok(Some(Answer::Absent)),
        Some(Kind::Queue) => Ok(Some(Answer::WrongKind)),
        Some(Kind::Dict) => match ask_key(locks, txn, name, key, mode)? {
            Some(by) => Ok(Some(Answer::Locked(by))),
            None => Ok(None),
        },
    }
}

// Asks for a lock, and tells who stands against it.
fn ask(
    locks: &mut Locks,
    txn: TxnId,
    name: &LockName,
    mode: LockMode,
) -> Result<Option<TxnId>, NoMemory>
    ensures told { IfOk result (λ by. by ≡ conflict locks.old txn name.now mode) }
    ensures kept { OnOk result (Alike locks.new (taken locks.old txn (record { name = name.now; mode = mode } ∷ []))) }
{
    match locks.take(txn, name, mode) {
        Ok(()) => Ok(None),
        Err(TakeError::Held { by }) => Ok(Some(by)),
        Err(TakeError::NoMemory) => Err(NoMemory),
    }
}

// Asks for the lock on a name.
fn ask_name(
    locks: &mut Locks,
    txn: TxnId,
    name: &Name,
    mode: LockMode,
) -> Result<Option<TxnId>, NoMemory>
    ensures told { IfOk result (λ by. by ≡ conflict locks.old txn (names.Name name.now) mode) }
    ensures kept { OnOk result (Alike locks.new (taken locks.old txn (record { name = names.Name name.now; mode = mode } ∷ []))) }
{
    let item = LockName::Name(name.clone()?);
    ask(locks, txn, &item, mode)
}

// Asks for the lock on a key.
fn ask_key(
    locks: &mut Locks,
    txn: TxnId,
    name: &Name,
    key: &Bytes,
    mode: LockMode,
) -> Result<Option<TxnId>, NoMemory>
    ensures told { IfOk result (λ by. by ≡ conflict locks.old txn (names.Key name.now key.now) mode) }
    ensures kept { OnOk result (Alike locks.new (taken locks.old txn (record { name = names.Key name.now key.now; mode = mode } ∷ []))) }
{
    let item = LockName::Key(name.clone()?, key.clone()?);
    ask(locks, txn, &item, mode)
}

// The mode in which a call locks its key.
fn mode_of(call: &KeyCall) -> LockMode
    ensures { result ≡ key_mode call.now }
{
    match call {
        KeyCall::Get => LockMode::Shared,
        KeyCall::GetForUpdate => LockMode::Update,
        KeyCall::Set(_) | KeyCall::Add(_) | KeyCall::Delete => LockMode::Exclusive,
    }
}

// The answer to a call on a key, by the key's value.
fn keyed(
    name: &Name,
    key: &Bytes,
    call: &KeyCall,
    present: Option<&Bytes>,
) -> Result<Reply, NoMemory>
    ensures { IfOk result (λ reply. reply ≡ answers.key_reply name.now key.now call.now (option_copied present.entry)) }
{
    match (call, present) {
        (KeyCall::Get | KeyCall::GetForUpdate, Some(value)) => {
            Ok(plain(Answer::Value(value.clone()?)))
        }
        (KeyCall::Get | KeyCall::GetForUpdate, None) => Ok(plain(Answer::Missing)),
        (KeyCall::Set(value), _) => put(Answer::Done, name, key, value),
        (KeyCall::Add(value), None) => put(Answer::True, name, key, value),
        (KeyCall::Delete, Some(_)) => Ok(Reply {
            answer: Answer::True,
            op: Some(Op::Del(name.clone()?, key.clone()?)),
        }),
        (KeyCall::Add(_), Some(_)) | (KeyCall::Delete, None) => Ok(plain(Answer::False)),
    }
}

// The key gets the value, and that is answered so.
fn put(answer: Answer, name: &Name, key: &Bytes, value: &Bytes) -> Result<Reply, NoMemory>
    ensures { IfOk result (λ reply. reply ≡ record { answer = answer; op = Some (ops.Put name.now key.now value.now) }) }
{
    Ok(Reply {
        answer,
        op: Some(Op::Put(name.clone()?, key.clone()?, value.clone()?)),
    })
}

// The kind of the collection that the transaction sees under the name.
#[tactic(auto, using(lock_laws::proofs::OwnOperations::kind_own))]
fn kind_seen(going: &Going, state: &State, name: &Name) -> Result<Option<Kind>, NoMemory>
    requires ordered { IsOrdered state.now }
    requires effective { AreEffective state.now going.now.ops }
    ensures { IfOk result (λ kind. kind ≡ kind_at name.now (folded state.now going.now.ops)) }
{
    let item = LockName::Name(name.clone()?);
    Ok(match going.newest(&item, &item) {
        Some(Op::Make(_, kind)) => Some(*kind),
        Some(Op::Unmake(_)) => None,
        _ => kind_shown(state, name),
    })
}

// The kind of the collection of a name, where there is one.
fn kind_shown(state: &State, name: &Name) -> Option<Kind>
    ensures { result ≡ kind_at name.now state.now }
{
    match state.get(name) {
        Some(contents) => Some(contents.kind()),
        None => None,
    }
}

// The value that the transaction sees at a key of a dictionary.
fn value_seen<'a>(
    going: &'a Going,
    state: &'a State,
    name: &Name,
    key: &Bytes,
) -> Result<Option<&'a Bytes>, NoMemory>
    requires ordered { IsOrdered state.now }
    requires effective { AreEffective state.now going.now.ops }
    ensures { IfOk result (λ value. option_copied value ≡ value_at name.now key.now (folded state.now going.now.ops)) }
{
    let item = LockName::Key(name.clone()?, key.clone()?);
    let within = LockName::Name(name.clone()?);
    match going.newest(&item, &within) {
        Some(op) => match op {
            Op::Put(_, _, value) => Ok(Some(value)),
            _ => Ok(None),
        },
        None => Ok(value_shown(state, name, key)),
    }
}

// The value of a key in the dictionary of a name, where there are both.
fn value_shown<'a>(state: &'a State, name: &Name, key: &Bytes) -> Option<&'a Bytes>
    ensures { option_copied result ≡ value_at name.now key.now state.now }
{
    match state.get(name)? {
        Contents::Dict(pairs) => pairs.get(key),
        Contents::Queue(_) => None,
    }
}
