//! A mount and a step, by the model alone.
ghost use Rattle.std.specs.Prelude.{◌≡◌, ◌≢◌, [], IfOk, Err, IsErrOf};
ghost use Rattle.rc_base.specs.Counts.{Counted};
ghost use Rattle.disk_model.specs.Disk.{Each, Only};
ghost use Rattle.txn_table.specs.Whole.{Whole};
ghost use Rattle.log_store.specs.declared.error.RecoverError.TheVariants as recover_errors;
ghost use Rattle.log_store.specs.Durable.{durable};
ghost use Rattle.replica.specs.declared.error.StepError.TheVariants as errors;
ghost use Rattle.replica_model.specs.OpenReplica.{OpenReplica};
ghost use Rattle.replica_model.specs.Records.{step_block};
ghost use Rattle.replica_model.specs.Steps.{cut_off};
ghost use Rattle.replica_laws.specs.Agreement.{AgreesOn};
ghost use Rattle.replica_laws.specs.Modelled.{IsReady, Opened, StandsIn, Took};

use disk_model::CrashDisk;
use log_store::RecoverError;
use rc_base::ReplicaId;
use replica::{Replica, StepError};
use replica_model::{Outcome, StepEvent};
use std::alloc::Global;

/// `Replica::mount`.
///
/// # Errors
/// Those of `Replica::mount`.
pub fn mount<D: CrashDisk>(
    alloc: Global,
    disk: &mut D,
    id: ReplicaId,
    partition: u128,
) -> Result<(Replica, Outcome), RecoverError>
    ensures opened { IfOk result (λ r. Opened r.0 id r.1 (D.images disk.new)) }
    ensures stop { (logs : _) → StandsIn logs (D.images disk.old) → StandsIn logs (D.images disk.new) }
    ensures corrupt { (area at : _) → IsErrOf result (recover_errors.Corrupt area at) → Each (D.images disk.new) (λ c. durable c ≡ Err (record { area = area; at = at })) }
    ensures durable { (result ≢ Err recover_errors.Disk) → (result ≢ Err recover_errors.NoMemory) → Only (D.seen disk.new) (D.images disk.new) }
    ensures cause { Counted (D.faults disk.old) (D.faults disk.new) (IsErrOf result recover_errors.Disk) }
    ensures marks { D.marks disk.new ≡ D.marks disk.old }
{
    Replica::mount(alloc, disk, id, partition)
}

/// `Replica::step`.
///
/// # Errors
/// Those of `Replica::step`.
pub fn step<D: CrashDisk>(
    replica: &mut Replica,
    disk: &mut D,
    event: &StepEvent,
) -> Result<Outcome, StepError>
    requires ready { IsReady replica.old event.now (D.images disk.old) }
    ensures took { IfOk result (λ told. (o : OpenReplica) → AgreesOn replica.old o (D.images disk.old) → Took replica.new o event.now told (D.images disk.new)) }
    ensures stop { (o : OpenReplica) → AgreesOn replica.old o (D.images disk.old) → StandsIn (cut_off o event.now) (D.images disk.new) }
    ensures untouched { (o : OpenReplica) → AgreesOn replica.old o (D.images disk.old) → step_block o event.now ≡ [] → disk.new ≡ disk.old }
    ensures only_logging { IsErrOf result errors.Disk → (o : OpenReplica) → AgreesOn replica.old o (D.images disk.old) → step_block o event.now ≢ [] }
    ensures cause { Counted (D.faults disk.old) (D.faults disk.new) (IsErrOf result errors.Disk) }
    ensures marks { D.marks disk.new ≡ D.marks disk.old }
{
    replica.step(disk, event)
}
