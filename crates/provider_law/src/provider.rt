ghost use Rattle.std.specs.Prelude.{◌≡◌, ◌≤◌, ◌↔◌, ℕ, min, Bool, true, IfOk, OnOk, OnErr, IsErrOf};
ghost use Rattle.coll_model.specs.declared.op.Kind.{Kind as KindValue};
ghost use Rattle.coll_model.specs.declared.contents.Contents.{Contents};
ghost use Rattle.coll_model.specs.Effect.{kind_of, fresh};
ghost use Rattle.coll_model.specs.Rows.{rows_of};
ghost use Rattle.provider_law.specs.Views.{alone, SameFrom, Written, Undone, Rests};
ghost use Rattle.provider_law.specs.Replies.{reply_of, AreRows, contents_of};
ghost use Rattle.provider_law.specs.declared.error.LoadError.TheVariants.{Bad};

use crate::ask::{Ask, Reply};
use crate::error::LoadError;
use coll_model::{Kind, Op, Rows};
use rc_base::{Lsn, NoMemory};
use std::alloc::Global;

/// A collection at versions: its contents can be looked at as they were at each version from its floor on, and what came
/// above a version can be undone. Versions are positions of a log. What is above its top looks as at the top.
///
/// An operation is taken for one of this collection, whatever its name. One that makes or unmakes a name changes nothing, nor
/// does one for the other kind.
pub trait StateProvider: Sized + Drop {
    /// Whether it has collections of a kind.
    ghost has: { KindValue → Bool };

    /// What it is.
    ghost sort: { Self → KindValue };

    /// The least version that can be looked at.
    ghost least: { Self → ℕ };

    /// The greatest version at which it was changed.
    ghost greatest: { Self → ℕ };

    /// Its contents at each version from its floor on.
    ghost view: { Self → ℕ → Contents };

    /// A new collection, of a kind that the type has, with nothing in it: floor and top are 0. It takes no memory.
    fn make(alloc: Global, kind: Kind) -> Self
        requires { has kind ≡ true }
        ensures sort { sort result ≡ kind }
        ensures floor { least result ≡ 0 }
        ensures top { greatest result ≡ 0 }
        ensures view { (w : ℕ) → view result w ≡ fresh kind };

    fn kind(&self) -> Kind
        ensures { result ≡ sort self.now };

    fn floor(&self) -> Lsn
        ensures { result.0 ≡ least self.now };

    fn top(&self) -> Lsn
        ensures { result.0 ≡ greatest self.now };

    /// An operation takes effect at a version that isn't below the top, which it becomes.
    ///
    /// # Errors
    /// `NoMemory`, and then all is as before.
    fn apply(&mut self, v: Lsn, op: &Op) -> Result<(), NoMemory>
        requires { greatest self.old ≤ v.0 }
        ensures sort { sort self.new ≡ sort self.old }
        ensures floor { least self.new ≡ least self.old }
        ensures top { OnOk result (greatest self.new ≡ v.0) }
        ensures views { OnOk result (Written v.0 (least self.old) (view self.old) (view self.new) (alone (view self.old (greatest self.old)) op.now)) }
        ensures same_top { OnErr result (greatest self.new ≡ greatest self.old) }
        ensures same_views { OnErr result (SameFrom (least self.old) (view self.old) (view self.new)) };

    /// What came above a version that isn't below the floor is undone. It takes no memory.
    fn undo_above(&mut self, v: Lsn)
        requires { least self.old ≤ v.0 }
        ensures sort { sort self.new ≡ sort self.old }
        ensures floor { least self.new ≡ least self.old }
        ensures top { greatest self.new ≡ min (greatest self.old) v.0 }
        ensures views { Undone v.0 (least self.old) (view self.old) (view self.new) };

    /// A version from the floor to the top becomes the floor: what is below can't be looked at any more. It takes no memory.
    fn merge_below(&mut self, v: Lsn)
        requires from { least self.old ≤ v.0 }
        requires to { v.0 ≤ greatest self.old }
        ensures sort { sort self.new ≡ sort self.old }
        ensures floor { least self.new ≡ v.0 }
        ensures top { greatest self.new ≡ greatest self.old }
        ensures views { SameFrom v.0 (view self.old) (view self.new) };

    /// Its items at a version that isn't below the floor.
    ///
    /// # Errors
    /// `NoMemory` where it is out of memory.
    fn save(&self, alloc: Global, v: Lsn) -> Result<Rows, NoMemory>
        requires { least self.now ≤ v.0 }
        ensures { IfOk result (λ rows. rows ≡ rows_of (view self.now v.0)) };

    /// A collection of a kind that the type has, with these items: floor and top are the version.
    ///
    /// # Errors
    /// `Bad` exactly where the rows aren't those of a collection of the kind, or their keys don't rise; `NoMemory` where it is
    /// out of memory.
    fn load(alloc: Global, kind: Kind, v: Lsn, rows: &Rows) -> Result<Self, LoadError>
        requires { has kind ≡ true }
        ensures rows { OnOk result (AreRows kind rows.now) }
        ensures sort { IfOk result (λ made. sort made ≡ kind) }
        ensures floor { IfOk result (λ made. least made ≡ v.0) }
        ensures top { IfOk result (λ made. greatest made ≡ v.0) }
        ensures view { IfOk result (λ made. (w : ℕ) → v.0 ≤ w → view made w ≡ contents_of rows.now) }
        ensures bad { IsErrOf result Bad → AreRows kind rows.now → ⊥ };

    /// What is asked, at a version that isn't below the floor.
    ///
    /// # Errors
    /// `NoMemory` where it is out of memory.
    fn read(&self, alloc: Global, v: Lsn, ask: &Ask) -> Result<Reply, NoMemory>
        requires { least self.now ≤ v.0 }
        ensures { IfOk result (λ reply. reply ≡ reply_of (view self.now v.0) ask.now) };

    /// The floor isn't above the top.
    ghost in_order: { (made : Self) → least made ≤ greatest made };

    /// From the top on the view rests.
    ghost rests: { (made : Self) → Rests (greatest made) (view made) };

    /// The contents are of its kind.
    ghost of_its_kind: { (made : Self) (w : ℕ) → kind_of (view made w) ≡ sort made };
}
