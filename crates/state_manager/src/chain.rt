ghost use Rattle.std.specs.Prelude.{◌≡◌, ℕ, ◌≤◌, ◌<◌, [], ◌∷◌, true, Some, option_map, IfOk, OnOk, OnErr, IsErrOf};
ghost use Rattle.std.specs.Option.{option_copied};
ghost use Rattle.std.specs.List.{position};
ghost use Rattle.coll_model.specs.declared.op.Op.{Op as OpValue};
ghost use Rattle.coll_laws.specs.Effects.{after};
ghost use Rattle.state_manager.specs.Chains.{standing, seen, is_made, made_by, dropped_at, has_live, made_over, AreKept, HasNewest, IsSlotReset, IsSettled, IsApplied, IsSame, IsCut, IsTurned, IsMergedTo};
ghost use Rattle.provider_law.specs.Replies.{AreRows, contents_of};
ghost use Rattle.provider_law.specs.declared.error.LoadError.TheVariants.{Bad};
ghost use Rattle.state_manager.specs.Managed.{IsServed};

use crate::slot::Slot;
use coll_model::{Collection, Kind, Op};
use provider_law::{LoadError, StateProvider};
use rc_base::{Lsn, NoMemory};
use std::alloc::Global;
use std::collections::VecDeque;
use std::marker::Model;

// The collections of one name, the newest first. Contracts see the list of them.
#[derive(Drop)]
pub(crate) struct Chain<P: StateProvider> {
    slots: VecDeque<Slot<P>>,
}

impl<P: StateProvider> Model for Chain<P> {
    ghost use Rattle.std.specs.Prelude.{List};
    ghost use Rattle.state_manager.specs.declared.slot.Slot.{Slot as SlotValue};

    ghost Value = { List (SlotValue P) };

    ghost view = { λ c. c.slots.items };
}

impl<P: StateProvider> Chain<P> {
    // No collection. It takes no memory.
    pub(crate) fn new(alloc: Global) -> Chain<P>
        ensures { result ≡ [] }
    {
        Chain {
            slots: VecDeque::new(alloc),
        }
    }

    // The collection that an image tells, made at the version.
    pub(crate) fn load(alloc: Global, v: Lsn, one: &Collection) -> Result<Chain<P>, LoadError>
        requires { P.has one.now.kind ≡ true }
        ensures rows { OnOk result (AreRows one.now.kind one.now.rows) }
        ensures kept { IfOk result (λ chain. AreKept P.least v.0 chain) }
        ensures views { IfOk result (λ chain. (w : ℕ) → v.0 ≤ w → seen P.view w chain ≡ Some (contents_of one.now.rows)) }
        ensures bad { IsErrOf result Bad → AreRows one.now.kind one.now.rows → ⊥ }
    {
        let mut slots = VecDeque::new(alloc);
        slots.push_front(Slot {
            provider: P::load(alloc, one.kind, v, &one.rows)?,
            made: v,
            dropped: None,
        })?;
        Ok(Chain { slots })
    }

    pub(crate) fn is_empty(&self) -> bool
        ensures { result ≡ true → self.now ≡ [] }
    {
        self.slots.is_empty()
    }

    // What stands at the version.
    pub(crate) fn standing(&self, v: Lsn) -> Option<&Slot<P>>
        ensures { option_copied result ≡ standing v.0 self.now }
    {
        for slot in self.slots.iter() {
            if slot.made.0 <= v.0 {
                return if slot.is_dropped(v) { None } else { Some(slot) };
            }
        }
        None
    }

    // What was made above the version goes.
    fn pop_above(&mut self, v: Lsn)
        ensures { self.new ≡ made_by v.0 self.old }
    {
        while let Some(slot) = self.slots.front() {
            if slot.made.0 <= v.0 {
                break;
            }
            self.slots.pop_front();
        }
    }

    // What came above the version is undone in the newest.
    fn reset(&mut self, v: Lsn)
        requires { AreKept P.least v.0 self.old }
        ensures { HasNewest (IsSlotReset P.least P.greatest P.view v.0) self.old self.new }
    {
        if let Some(slot) = self.slots.front_mut() {
            slot.undo_above(v);
        }
    }

    // What came above the version is undone. It takes no memory.
    pub(crate) fn undo_above(&mut self, v: Lsn)
        requires { AreKept P.least v.0 self.old }
        ensures settled { IsSettled P.greatest v.0 self.new }
        ensures cut { IsCut P.least P.view v.0 self.old self.new }
    {
        self.pop_above(v);
        self.reset(v);
    }

    // The newest is dropped.
    fn drop_newest(&mut self, v: Lsn)
        ensures { HasNewest (λ slot now. now ≡ dropped_at v slot) self.old self.new }
    {
        if let Some(slot) = self.slots.front_mut() {
            slot.drop_at(v);
        }
    }

    // An operation on the newest takes effect.
    fn apply(&mut self, v: Lsn, op: &Op) -> Result<(), NoMemory>
        requires { IsSettled P.greatest v.0 self.old }
        ensures ok { OnOk result (HasNewest (IsApplied P.least P.view v.0 op.now) self.old self.new) }
        ensures err { OnErr result (HasNewest (IsSame P.least P.view) self.old self.new) }
    {
        match self.slots.front_mut() {
            Some(slot) => slot.apply(v, op),
            None => Ok(()),
        }
    }

    // Whether the newest isn't dropped.
    fn has_live(&self) -> bool
        ensures { result ≡ has_live self.now }
    {
        match self.slots.front() {
            Some(slot) => slot.dropped.is_none(),
            None => false,
        }
    }

    // A new collection comes, unless one stands.
    fn make(&mut self, alloc: Global, v: Lsn, kind: Kind) -> Result<(), NoMemory>
        requires served { P.has kind ≡ true }
        requires settled { IsSettled P.greatest v.0 self.old }
        ensures ok { OnOk result (IsTurned P.least P.view v.0 self.old self.new (made_over kind (seen P.view v.0 self.old))) }
        ensures err { OnErr result (self.new ≡ self.old) }
    {
        if self.has_live() {
            return Ok(());
        }
        self.slots.push_front(Slot {
            provider: P::make(alloc, kind),
            made: v,
            dropped: None,
        })?;
        Ok(())
    }

    // An operation takes effect at a version that isn't below the others.
    //
    // After an error it is as after an undo of what came above the version.
    pub(crate) fn operate(&mut self, alloc: Global, v: Lsn, op: &Op) -> Result<(), NoMemory>
        requires served { IsServed P.has op.now }
        requires kept { AreKept P.least v.0 self.old }
        ensures ok { OnOk result (IsTurned P.least P.view v.0 self.old self.new (after op.now (seen P.view v.0 self.old))) }
        ensures err { OnErr result (IsCut P.least P.view v.0 self.old self.new) }
    {
        self.undo_above(v);
        match op {
            Op::Make(_, kind) => self.make(alloc, v, *kind),
            Op::Unmake(_) => {
                self.drop_newest(v);
                Ok(())
            }
            _ => self.apply(v, op),
        }
    }

    // The place of the newest that was made by the version.
    fn place_of(&self, v: Lsn) -> Option<usize>
        ensures { result ≡ position (is_made v.0) self.now }
    {
        self.slots.iter().position(
            |slot: &Slot<P>| -> bool
                ensures { result ≡ is_made v.0 slot.now }
            { slot.made.0 <= v.0 },
        )
    }

    // What is below the version can't be looked at any more. It takes no memory.
    pub(crate) fn merge_below(&mut self, v: Lsn)
        requires { AreKept P.least v.0 self.old }
        ensures { IsMergedTo P.least P.view v.0 self.old self.new }
    {
        let Some(place) = self.place_of(v) else {
            return;
        };
        self.slots.truncate(place + 1);
        let Some(mut slot) = self.slots.pop_back() else {
            return;
        };
        if !slot.is_dropped(v) {
            slot.merge_below(v);
            self.slots.push_back_reserved(slot);
        }
    }
}
