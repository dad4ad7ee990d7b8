ghost use Rattle.std.specs.Prelude.{◌≡◌, ℕ, List, false, None};
ghost use Rattle.fleet_acts.specs.Standing.{Done, StandsAt};
ghost use Rattle.fleet_run.specs.Acts.Act.{Closes};
ghost use Rattle.fleet_run.specs.Acts.How.{Fine};
ghost use Rattle.fleet_run.specs.Scenes.{Scene, replica_at};
ghost use Rattle.disk_model.specs.Disk.{after_stop};
ghost use Rattle.order_machine.specs.declared.observation.Observation.{Observation};

use disk_model::CrashDisk;
use replica::Replica;

/// A replica is closed, whether it was open or not, and its disk is stopped. It says no line, and takes no memory.
pub fn close<D: CrashDisk>(replica: Option<Replica>, disk: &mut D, pick: u64)
    ensures does { (s : Scene) (r : ℕ) (lines : List Observation) → StandsAt replica (D.images disk.old) (replica_at s.replicas r) → Done s (Closes r) (Fine false) r None (D.images disk.new) lines lines }
    ensures disarmed { D.calls_left disk.new ≡ None }
    ensures faults { D.faults disk.new ≡ D.faults disk.old }
    ensures marks { D.marks disk.new ≡ after_stop pick (D.marks disk.old) }
{
    let _ = replica;
    disk.crash(pick);
}
