ghost use Rattle.std.specs.Prelude.{◌≡◌, [], All, ℕ, List, false, OnOk, OnErr};
ghost use Rattle.std.specs.Option.{option_copied};
ghost use Rattle.coll_laws.specs.Effects as effects;
ghost use Rattle.coll_laws.specs.Effects.{after};
ghost use Rattle.coll_laws.specs.Rising.{AreRising};
ghost use Rattle.state_manager.specs.Chains.{seen, AreKept, IsCut, IsTurned, IsMergedTo};
ghost use Rattle.state_manager.specs.Managed.{chain_of, IsServed, HasOthers};

use crate::chain::Chain;
use coll_model::Op;
use provider_law::StateProvider;
use rc_base::{Lsn, Name, NoMemory};
use std::alloc::Global;
use std::collections::BTreeMap;

// The collections of each name, by rising name.
pub(crate) type Chains<P> = BTreeMap<Name, Chain<P>>;

// The name that the operation is on.
pub(crate) fn name_of(op: &Op) -> &Name
    ensures { result.now ≡ effects.name_of op.now }
{
    match op {
        Op::Make(name, _)
        | Op::Unmake(name)
        | Op::Put(name, _, _)
        | Op::Del(name, _)
        | Op::Push(name, _)
        | Op::Pop(name) => name,
    }
}

// An operation takes effect on the collections of its name, at a version that isn't below the others.
//
// After an error these are as after an undo of what came above the version.
pub(crate) fn operate_on<P: StateProvider>(
    chains: &mut Chains<P>,
    alloc: Global,
    v: Lsn,
    op: &Op,
) -> Result<(), NoMemory>
    requires served { IsServed P.has op.now }
    requires rising { AreRising chains.old.entries }
    requires kept { AreKept P.least v.0 (chain_of (effects.name_of op.now) chains.old.entries) }
    ensures rising { AreRising chains.new.entries }
    ensures others { HasOthers (effects.name_of op.now) chains.old.entries chains.new.entries }
    ensures ok { OnOk result (IsTurned P.least P.view v.0 (chain_of (effects.name_of op.now) chains.old.entries) (chain_of (effects.name_of op.now) chains.new.entries) (after op.now (seen P.view v.0 (chain_of (effects.name_of op.now) chains.old.entries)))) }
    ensures err { OnErr result (IsCut P.least P.view v.0 (chain_of (effects.name_of op.now) chains.old.entries) (chain_of (effects.name_of op.now) chains.new.entries)) }
{
    let name = name_of(op);
    if let Some(chain) = chains.get_mut(name) {
        return chain.operate(alloc, v, op);
    }
    enter(chains, alloc, v, op)
}

// The same where the name has no collections yet.
fn enter<P: StateProvider>(
    chains: &mut Chains<P>,
    alloc: Global,
    v: Lsn,
    op: &Op,
) -> Result<(), NoMemory>
    requires served { IsServed P.has op.now }
    requires absent { chain_of (effects.name_of op.now) chains.old.entries ≡ [] }
    requires rising { AreRising chains.old.entries }
    ensures rising { AreRising chains.new.entries }
    ensures others { HasOthers (effects.name_of op.now) chains.old.entries chains.new.entries }
    ensures ok { OnOk result (IsTurned P.least P.view v.0 [] (chain_of (effects.name_of op.now) chains.new.entries) (after op.now (seen P.view v.0 []))) }
    ensures err { OnErr result (chains.new.entries ≡ chains.old.entries) }
{
    let mut chain = Chain::new(alloc);
    chain.operate(alloc, v, op)?;
    if !chain.is_empty() {
        chains.insert(name_of(op).clone()?, chain)?;
    }
    Ok(())
}

// What came above the version is undone in the collections of the name.
pub(crate) fn undo_in<P: StateProvider>(chains: &mut Chains<P>, v: Lsn, name: &Name)
    requires rising { AreRising chains.old.entries }
    requires kept { AreKept P.least v.0 (chain_of name.now chains.old.entries) }
    ensures rising { AreRising chains.new.entries }
    ensures others { HasOthers name.now chains.old.entries chains.new.entries }
    ensures cut { IsCut P.least P.view v.0 (chain_of name.now chains.old.entries) (chain_of name.now chains.new.entries) }
{
    if let Some(chain) = chains.get_mut(name) {
        chain.undo_above(v);
    }
}

// What is below the version can't be looked at any more, under any name. A name without a collection goes.
pub(crate) fn merge_in_all<P: StateProvider>(chains: &mut Chains<P>, v: Lsn)
    requires rising { AreRising chains.old.entries }
    requires kept { All (λ entry. AreKept P.least v.0 entry.1) chains.old.entries }
    ensures rising { AreRising chains.new.entries }
    ensures each { (name : List ℕ) → IsMergedTo P.least P.view v.0 (chain_of name chains.old.entries) (chain_of name chains.new.entries) }
{
    chains.retain(
        |_name: &Name, chain: &mut Chain<P>| -> bool
            requires { AreKept P.least v.0 chain.old }
            ensures merged { IsMergedTo P.least P.view v.0 chain.old chain.new }
            ensures gone { result ≡ false → chain.new ≡ [] }
        {
            chain.merge_below(v);
            !chain.is_empty()
        },
    );
}
