ghost use Rattle.std.specs.Prelude.{OnOk};
ghost use Rattle.fleet_acts.specs.Standing.{Said};
ghost use Rattle.fleet_run.specs.Scenes.{Scene};

use crate::lines::append;
use order_machine::Observations;
use rc_base::NoMemory;

/// Lines are said, behind those before them.
///
/// # Errors
/// `NoMemory`: some of them may be there.
#[tactic(auto, using(crate::proofs::Frames::says_so))]
pub fn say(more: Observations, lines: &mut Observations) -> Result<(), NoMemory>
    ensures { OnOk result ((s : Scene) → Said s more lines.old lines.new) }
{
    append(more, lines)
}
