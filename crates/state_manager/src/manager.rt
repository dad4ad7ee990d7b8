ghost use Rattle.std.specs.Prelude.{◌≡◌, ◌≢◌, ◌≤◌, ◌<◌, ℕ, min, drop, true, false, [], All, IfOk, OnOk, OnErr, IsErrOf, IfSome, option_map, map};
ghost use Rattle.std.specs.Option.{option_copied};
ghost use Rattle.coll_model.specs.Effect.{at_key, kind_of, effect, folded};
ghost use Rattle.std.specs.Map.{keys_of};
ghost use Rattle.coll_model.specs.Rows.{image, collection_of};
ghost use Rattle.provider_law.specs.Replies.{reply_of, AreRows};
ghost use Rattle.provider_law.specs.declared.error.LoadError.TheVariants.{Bad};
ghost use Rattle.coll_laws.specs.Rising.{AreRising};
ghost use Rattle.state_manager.specs.Chains.{AreSame, AreCut, AreChanged};
ghost use Rattle.state_manager.specs.Managed.{state_at, told_by, has_above, IsServed};

use crate::change::{Change, keep_above};
use crate::loading::load_all;
use crate::names::{Chains, merge_in_all, name_of, operate_on, undo_in};
use crate::slot::Slot;
use coll_model::{Collection, Image, Kind, Names, Op};
use provider_law::{Ask, LoadError, Reply, StateProvider};
use rc_base::{Lsn, Name, NoMemory};
use std::alloc::Global;
use std::collections::{BTreeMap, VecDeque};
use std::marker::Model;

/// The collections of a replica under their names, at versions. Contracts see what `Managed` tells, and of that the state at
/// each version (`state_at`). What is above the top looks as at the top.
#[derive(Drop)]
pub struct Manager<P: StateProvider> {
    alloc: Global,
    chains: Chains<P>,
    // The newest is the first.
    changes: VecDeque<Change>,
    floor: Lsn,
    top: Lsn,
}

impl<P: StateProvider> Model for Manager<P> {
    ghost use Rattle.state_manager.specs.Managed.{Managed, IsManaged};

    ghost Value = { Managed P };

    ghost view = { λ m. record { chains = m.chains.entries; changes = m.changes.items; floor = m.floor; top = m.top } };

    ghost invariant = { λ m. IsManaged P.least P.view (record { chains = m.chains.entries; changes = m.changes.items; floor = m.floor; top = m.top }) };
}

impl<P: StateProvider> Manager<P> {
    /// No collections: floor and top are 0. It takes no memory.
    pub fn new(alloc: Global) -> Manager<P>
        ensures { result ≡ record { chains = []; changes = []; floor = record { 0 = 0 }; top = record { 0 = 0 } } }
    {
        Manager::at(alloc, Lsn(0))
    }

    // No collections, from the version on.
    fn at(alloc: Global, v: Lsn) -> Manager<P>
        ensures { result ≡ record { chains = []; changes = []; floor = v; top = v } }
    {
        Manager {
            alloc,
            chains: BTreeMap::new(alloc),
            changes: VecDeque::new(alloc),
            floor: v,
            top: v,
        }
    }

    /// The collections that an image tells, whose names rise and whose kinds the type of providers has: floor and top are the
    /// version.
    ///
    /// # Errors
    /// `Bad` exactly where the rows of some collection aren't those of its kind, or their keys don't rise; `NoMemory` where it
    /// is out of memory.
    pub fn load(alloc: Global, v: Lsn, image: &Image) -> Result<Manager<P>, LoadError>
        requires served { All (λ one. P.has one.kind ≡ true) image.now }
        requires rising { AreRising (told_by image.now) }
        ensures rows { OnOk result (All (λ one. AreRows one.kind one.rows) image.now) }
        ensures floor { IfOk result (λ manager. manager.floor ≡ v) }
        ensures top { IfOk result (λ manager. manager.top ≡ v) }
        ensures states { IfOk result (λ manager. (w : ℕ) → v.0 ≤ w → state_at P.view manager w ≡ told_by image.now) }
        ensures bad { IsErrOf result Bad → All (λ one. AreRows one.kind one.rows) image.now → ⊥ }
    {
        Ok(Manager {
            alloc,
            chains: load_all(alloc, v, image.as_slice())?,
            changes: VecDeque::new(alloc),
            floor: v,
            top: v,
        })
    }

    /// The least version that can be looked at.
    pub fn floor(&self) -> Lsn
        ensures { result ≡ self.now.floor }
    {
        self.floor
    }

    /// The greatest version at which something changed.
    pub fn top(&self) -> Lsn
        ensures { result ≡ self.now.top }
    {
        self.top
    }

    /// Operations take effect, in order, at a version above the top, which it becomes: a commit. Where there is none, nothing
    /// changes. It costs no walk of the collections.
    ///
    /// # Errors
    /// `NoMemory`, and then the states are as before.
    pub fn apply(&mut self, v: Lsn, ops: &[Op]) -> Result<(), NoMemory>
        requires above { self.old.top.0 < v.0 }
        requires served { All (IsServed P.has) ops.now }
        ensures floor { self.new.floor ≡ self.old.floor }
        ensures top { ops.now ≢ [] → OnOk result (self.new.top ≡ v) }
        ensures states { ops.now ≢ [] → OnOk result (AreChanged v.0 self.old.floor.0 (state_at P.view self.old) (state_at P.view self.new) (folded (state_at P.view self.old self.old.top.0) ops.now)) }
        ensures nothing { ops.now ≡ [] → self.new ≡ self.old }
        ensures same_top { OnErr result (self.new.top ≡ self.old.top) }
        ensures same_states { OnErr result (AreSame self.old.floor.0 (state_at P.view self.old) (state_at P.view self.new)) }
    {
        let top = self.top;
        for op in ops {
            if let Err(no_memory) = self.operate(v, op) {
                self.undo_above(top);
                return Err(no_memory);
            }
        }
        Ok(())
    }

    // An operation takes effect at a version that isn't below the top, which it becomes.
    fn operate(&mut self, v: Lsn, op: &Op) -> Result<(), NoMemory>
        requires from { self.old.top.0 ≤ v.0 }
        requires served { IsServed P.has op.now }
        ensures floor { self.new.floor ≡ self.old.floor }
        ensures top { OnOk result (self.new.top ≡ v) }
        ensures states { OnOk result (AreChanged v.0 self.old.floor.0 (state_at P.view self.old) (state_at P.view self.new) (effect (state_at P.view self.old self.old.top.0) op.now)) }
        ensures same_top { OnErr result (self.new.top ≡ self.old.top) }
        ensures same_states { OnErr result (AreSame self.old.floor.0 (state_at P.view self.old) (state_at P.view self.new)) }
    {
        self.changes.reserve(1)?;
        let change = Change {
            at: v,
            name: name_of(op).clone()?,
        };
        operate_on(&mut self.chains, self.alloc, v, op)?;
        self.changes.push_front_reserved(change);
        self.top = v;
        Ok(())
    }

    /// What came above a version that isn't below the floor is undone. It costs what it takes away, and takes no memory.
    pub fn undo_above(&mut self, v: Lsn)
        requires { self.old.floor.0 ≤ v.0 }
        ensures floor { self.new.floor ≡ self.old.floor }
        ensures top { self.new.top.0 ≡ min self.old.top.0 v.0 }
        ensures states { AreCut v.0 self.old.floor.0 (state_at P.view self.old) (state_at P.view self.new) }
    {
        while self.has_above(v) {
            self.take_back(v);
        }
        self.lower_top(v);
    }

    // Whether a change is above the version.
    fn has_above(&self, v: Lsn) -> bool
        ensures { result ≡ has_above v.0 self.now.changes }
    {
        match self.changes.front() {
            Some(change) => v.0 < change.at.0,
            None => false,
        }
    }

    // The top is not above the version, as no change is.
    fn lower_top(&mut self, v: Lsn)
        requires from { self.old.floor.0 ≤ v.0 }
        requires none { has_above v.0 self.old.changes ≡ false }
        ensures floor { self.new.floor ≡ self.old.floor }
        ensures top { self.new.top.0 ≡ min self.old.top.0 v.0 }
        ensures states { (w : ℕ) → self.old.floor.0 ≤ w → w ≤ v.0 → state_at P.view self.new w ≡ state_at P.view self.old w }
        ensures rests { (w : ℕ) → v.0 ≤ w → state_at P.view self.new w ≡ state_at P.view self.old v.0 }
    {
        if v.0 < self.top.0 {
            self.top = v;
        }
    }

    // The newest change, which is above the version, is taken back, with all that came above the version under its name.
    fn take_back(&mut self, v: Lsn)
        requires from { self.old.floor.0 ≤ v.0 }
        requires above { has_above v.0 self.old.changes ≡ true }
        ensures floor { self.new.floor ≡ self.old.floor }
        ensures top { self.new.top ≡ self.old.top }
        ensures changes { self.new.changes ≡ drop 1 self.old.changes }
        ensures states { (w : ℕ) → self.old.floor.0 ≤ w → w ≤ v.0 → state_at P.view self.new w ≡ state_at P.view self.old w }
    {
        if let Some(change) = self.changes.pop_front() {
            undo_in(&mut self.chains, v, &change.name);
        }
    }

    /// A version from the floor to the top becomes the floor: what is below can't be looked at any more. It walks all
    /// collections, and takes no memory.
    pub fn merge_below(&mut self, v: Lsn)
        requires from { self.old.floor.0 ≤ v.0 }
        requires to { v.0 ≤ self.old.top.0 }
        ensures floor { self.new.floor ≡ v }
        ensures top { self.new.top ≡ self.old.top }
        ensures states { AreSame v.0 (state_at P.view self.old) (state_at P.view self.new) }
    {
        merge_in_all(&mut self.chains, v);
        keep_above(&mut self.changes, v);
        self.floor = v;
    }

    /// What is asked of the collection of a name, at a version that isn't below the floor: none exactly where it has none then.
    ///
    /// # Errors
    /// `NoMemory` where it is out of memory.
    pub fn read(&self, v: Lsn, name: &Name, ask: &Ask) -> Result<Option<Reply>, NoMemory>
        requires { self.now.floor.0 ≤ v.0 }
        ensures { IfOk result (λ reply. reply ≡ option_map (λ contents. reply_of contents ask.now) (at_key name.now (state_at P.view self.now v.0))) }
    {
        match self.standing(v, name) {
            Some(slot) => Ok(Some(slot.provider.read(self.alloc, v, ask)?)),
            None => Ok(None),
        }
    }

    /// The kind of the collection of a name at a version: none exactly where it has none then. It takes no memory.
    pub fn kind_at(&self, v: Lsn, name: &Name) -> Option<Kind>
        requires { self.now.floor.0 ≤ v.0 }
        ensures { result ≡ option_map kind_of (at_key name.now (state_at P.view self.now v.0)) }
    {
        let slot = self.standing(v, name)?;
        Some(slot.provider.kind())
    }

    // What stands under the name at the version.
    fn standing(&self, v: Lsn, name: &Name) -> Option<&Slot<P>>
        requires { self.now.floor.0 ≤ v.0 }
        ensures shown { option_map (λ slot. P.view slot.provider v.0) (option_copied result) ≡ at_key name.now (state_at P.view self.now v.0) }
        ensures kept { IfSome result (λ slot. P.least slot.now.provider ≤ v.0) }
    {
        self.chains.get(name)?.standing(v)
    }

    /// The names that stand at a version that isn't below the floor, by rising name.
    ///
    /// # Errors
    /// `NoMemory` where it is out of memory.
    pub fn names(&self, v: Lsn) -> Result<Names, NoMemory>
        requires { self.now.floor.0 ≤ v.0 }
        ensures { IfOk result (λ names. names ≡ keys_of (state_at P.view self.now v.0)) }
    {
        let mut names = Names::new(self.alloc);
        for (name, chain) in self.chains.iter() {
            if chain.standing(v).is_some() {
                names.push(name.clone()?)?;
            }
        }
        Ok(names)
    }

    /// Copies of the collections at a version that isn't below the floor, by rising name.
    ///
    /// # Errors
    /// `NoMemory` where it is out of memory.
    pub fn save(&self, v: Lsn) -> Result<Image, NoMemory>
        requires { self.now.floor.0 ≤ v.0 }
        ensures saved { IfOk result (λ saved. saved ≡ image (state_at P.view self.now v.0)) }
        // It can be loaded.
        ensures rising { IfOk result (λ saved. AreRising (told_by saved)) }
    {
        let mut saved = Image::new(self.alloc);
        for (name, chain) in self.chains.iter() {
            if let Some(slot) = chain.standing(v) {
                saved.push(collection(self.alloc, v, name, slot)?)?;
            }
        }
        Ok(saved)
    }
}

// A copy of a collection at a version that isn't below its floor.
fn collection<P: StateProvider>(
    alloc: Global,
    v: Lsn,
    name: &Name,
    slot: &Slot<P>,
) -> Result<Collection, NoMemory>
    requires { P.least slot.now.provider ≤ v.0 }
    ensures { IfOk result (λ one. one ≡ collection_of (name.now, P.view slot.now.provider v.0)) }
{
    Ok(Collection {
        name: name.clone()?,
        kind: slot.provider.kind(),
        rows: slot.provider.save(alloc, v)?,
    })
}
