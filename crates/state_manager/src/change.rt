ghost use Rattle.std.specs.Prelude.{◌≡◌, nat_lt, filter};

use rc_base::{Lsn, Name};
use std::collections::VecDeque;

// An operation took effect under the name, at this version.
#[derive(Drop)]
pub(crate) struct Change {
    pub(crate) at: Lsn,
    pub(crate) name: Name,
}

// Leaves the changes above the version.
pub(crate) fn keep_above(changes: &mut VecDeque<Change>, v: Lsn)
    ensures { changes.new.items ≡ filter (λ change. nat_lt v.0 change.at.0) changes.old.items }
{
    changes.retain(|change| v.0 < change.at.0);
}
