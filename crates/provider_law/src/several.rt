ghost use Rattle.std.specs.Prelude.{◌≡◌, ◌<◌, [], if◌then◌else◌, OnOk, OnErr, ◌≢◌};
ghost use Rattle.provider_law.specs.Views.{together, SameFrom, Written};

use crate::provider::StateProvider;
use coll_model::Op;
use rc_base::{Lsn, NoMemory};

/// Several operations take effect, in order, at a version above the top, which it becomes. Where there is none, nothing changes.
///
/// # Errors
/// `NoMemory`, and then all is as before.
pub fn apply_all<P: StateProvider>(provider: &mut P, v: Lsn, ops: &[Op]) -> Result<(), NoMemory>
    requires { P.greatest provider.old < v.0 }
    ensures sort { P.sort provider.new ≡ P.sort provider.old }
    ensures floor { P.least provider.new ≡ P.least provider.old }
    ensures top { ops.now ≢ [] → OnOk result (P.greatest provider.new ≡ v.0) }
    ensures views { ops.now ≢ [] → OnOk result (Written v.0 (P.least provider.old) (P.view provider.old) (P.view provider.new) (together (P.view provider.old (P.greatest provider.old)) ops.now)) }
    ensures nothing { ops.now ≡ [] → provider.new ≡ provider.old }
    ensures same_top { OnErr result (P.greatest provider.new ≡ P.greatest provider.old) }
    ensures same_views { OnErr result (SameFrom (P.least provider.old) (P.view provider.old) (P.view provider.new)) }
{
    let top = provider.top();
    for op in ops {
        if let Err(no_memory) = provider.apply(v, op) {
            provider.undo_above(top);
            return Err(no_memory);
        }
    }
    Ok(())
}
