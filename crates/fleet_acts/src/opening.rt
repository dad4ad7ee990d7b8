ghost use Rattle.std.specs.Prelude.{◌≡◌, ◌++◌, ◌∷◌, [], IfOk, OnOk, None, Ok};
ghost use Rattle.order_machine.specs.declared.observation.Observation.TheVariants as says;
ghost use Rattle.rc_base.specs.Counts.{Counted};
ghost use Rattle.fleet_acts.specs.Standing.{Done, how_opened};
ghost use Rattle.fleet_run.specs.Acts.Act.{Opens};
ghost use Rattle.fleet_run.specs.Scenes.{Scene, replica_at};
ghost use Rattle.fleet_run.specs.Scenes.FleetReplica.{Closed};
ghost use Rattle.replica_laws.specs.Modelled.{StandsIn};

use disk_model::CrashDisk;
use log_store::RecoverError;
use order_machine::{Observation, Observations};
use rc_base::{NoMemory, ReplicaId};
use replica::Replica;
use replica_laws::mount;
use replica_model::Outcome;
use std::alloc::Global;

/// Replica `id` is opened over its disk, and its lines say so. None where the disk failed, and then the line `fault` says that.
///
/// # Errors
/// `NoMemory`: some of its lines may be there.
pub fn open<D: CrashDisk>(
    alloc: Global,
    id: ReplicaId,
    disk: &mut D,
    lines: &mut Observations,
) -> Result<Option<Replica>, NoMemory>
    requires closed { (logs : _) × StandsIn logs (D.images disk.old) }
    ensures does { IfOk result (λ x. (s : Scene) (logs : _) → replica_at s.replicas id ≡ Closed logs → StandsIn logs (D.images disk.old) → Done s (Opens id) (how_opened x) id x (D.images disk.new) lines.old lines.new) }
    ensures cut { (logs : _) → StandsIn logs (D.images disk.old) → StandsIn logs (D.images disk.new) }
    ensures cause { Counted (D.faults disk.old) (D.faults disk.new) (result ≡ Ok None) }
    ensures marks { D.marks disk.new ≡ D.marks disk.old }
{
    match mount(alloc, disk, id, 0) {
        Ok((replica, outcome)) => {
            tell_opening(id, &outcome, lines)?;
            Ok(Some(replica))
        }
        Err(RecoverError::Disk) => {
            lines.push(Observation::Fault(id))?;
            Ok(None)
        }
        Err(RecoverError::NoMemory) => Err(NoMemory),
        Err(RecoverError::Corrupt { .. }) => unreachable!(),
    }
}

fn tell_opening(id: ReplicaId, outcome: &Outcome, lines: &mut Observations) -> Result<(), NoMemory>
    ensures told { OnOk result (lines.new ≡ lines.old ++ says.Up id ∷ says.View id outcome.now.shown ∷ []) }
{
    lines.push(Observation::Up(id))?;
    lines.push(Observation::View(id, outcome.shown))?;
    Ok(())
}
