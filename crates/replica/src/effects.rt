ghost use Rattle.std.specs.Prelude.{◌≡◌, flat_map, OnOk};
ghost use Rattle.coll_model.specs.Effect.{folded};

use coll_model::{Op, State};
use rc_base::NoMemory;
use txn_table::Committed;

// The operations take effect, in order.
pub(crate) fn apply_all(state: &mut State, ops: &[Op]) -> Result<(), NoMemory>
    ensures { OnOk result (state.new ≡ folded state.old ops.now) }
{
    for op in ops {
        state.apply(op)?;
    }
    Ok(())
}

// The commits take effect, in order.
pub(crate) fn apply_commits(state: &mut State, commits: &[Committed]) -> Result<(), NoMemory>
    ensures { OnOk result (state.new ≡ folded state.old (flat_map (λ commit. commit.ops) commits.now)) }
{
    for commit in commits {
        apply_all(state, commit.ops.as_slice())?;
    }
    Ok(())
}
