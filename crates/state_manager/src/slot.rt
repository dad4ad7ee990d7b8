ghost use Rattle.std.specs.Prelude.{◌≡◌, ◌≤◌, OnOk, OnErr};
ghost use Rattle.provider_law.specs.Views.{alone};
ghost use Rattle.state_manager.specs.Chains.{is_dropped, dropped_at, IsSlotReset, IsSlotSettled, IsApplied, IsSame, IsMerged};

use coll_model::Op;
use provider_law::StateProvider;
use rc_base::{Lsn, NoMemory};

// A collection under a name: the versions at which it was made and, where it was, dropped.
#[derive(Drop)]
pub(crate) struct Slot<P: StateProvider> {
    pub(crate) provider: P,
    pub(crate) made: Lsn,
    pub(crate) dropped: Option<Lsn>,
}

impl<P: StateProvider> Slot<P> {
    // Whether it was dropped at or below the version.
    pub(crate) fn is_dropped(&self, v: Lsn) -> bool
        ensures { result ≡ is_dropped v.0 self.now }
    {
        match self.dropped {
            Some(at) => at.0 <= v.0,
            None => false,
        }
    }

    // What came above the version is undone, a drop too.
    pub(crate) fn undo_above(&mut self, v: Lsn)
        requires { P.least self.old.provider ≤ v.0 }
        ensures { IsSlotReset P.least P.greatest P.view v.0 self.old self.new }
    {
        self.provider.undo_above(v);
        self.dropped = match self.dropped {
            Some(at) if at.0 <= v.0 => Some(at),
            _ => None,
        };
    }

    // It is dropped at the version, unless it was before.
    pub(crate) fn drop_at(&mut self, v: Lsn)
        ensures { self.new ≡ dropped_at v self.old }
    {
        if self.dropped.is_none() {
            self.dropped = Some(v);
        }
    }

    // An operation on it takes effect, unless it is dropped.
    pub(crate) fn apply(&mut self, v: Lsn, op: &Op) -> Result<(), NoMemory>
        requires { IsSlotSettled P.greatest v.0 self.old }
        ensures ok { OnOk result (IsApplied P.least P.view v.0 op.now self.old self.new) }
        ensures err { OnErr result (IsSame P.least P.view self.old self.new) }
    {
        if self.dropped.is_none() {
            self.provider.apply(v, op)?;
        }
        Ok(())
    }

    // What is below the version can't be looked at any more.
    pub(crate) fn merge_below(&mut self, v: Lsn)
        requires { P.least self.old.provider ≤ v.0 }
        ensures { IsMerged P.least P.view v.0 self.old self.new }
    {
        let top = self.provider.top();
        self.provider.merge_below(if v.0 < top.0 { v } else { top });
    }
}
