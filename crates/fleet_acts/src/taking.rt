ghost use Rattle.std.specs.Prelude.{◌≡◌, ℕ, IfOk, Ok, None};
ghost use Rattle.rc_base.specs.Counts.{Counted};
ghost use Rattle.fleet_acts.specs.Lines.{closing_lines};
ghost use Rattle.fleet_acts.specs.Standing.{Cut, Done, Ready, how_taken, left_open};
ghost use Rattle.fleet_run.specs.Acts.Act.{Takes};
ghost use Rattle.fleet_run.specs.Scenes.{Scene};
ghost use Rattle.order_machine.specs.Machine.{order_of};
ghost use Rattle.order_machine.specs.Order.{length_of};
ghost use Rattle.replica.specs.Step as step_spec;
ghost use Rattle.replica_laws.specs.Agreement.{AgreesOn};
ghost use Rattle.replica_laws.specs.Modelled.{IsReady};
ghost use Rattle.replica_model.specs.OpenReplica.{OpenReplica};

use crate::lines::{stays_active, tell};
use crate::rows::inspection;
use disk_model::CrashDisk;
use order_machine::{Observation, Observations};
use rc_base::NoMemory;
use replica::{Replica, StepError};
use replica_laws::step;
use replica_model::{Role, StepEvent};
use std::alloc::Global;

// Whether the role is that of an active primary.
fn is_active(role: Role) -> bool
    ensures { result ≡ step_spec.is_active role }
{
    matches!(role, Role::Primary { active: true, .. })
}

/// An open replica takes a step, and its lines say so, with the closing one behind them. `order` is how many transactions the order
/// has that the replica shows a beginning of. Answers whether a Barrier is due; None where the disk failed, and then the line
/// `fault` says that, and the replica is to be dropped.
///
/// # Errors
/// `NoMemory`: some of its lines may be there, and the replica is to be dropped.
pub fn take<D: CrashDisk>(
    alloc: Global,
    replica: &mut Replica,
    disk: &mut D,
    order: u64,
    event: &StepEvent,
    closing: Option<Observation>,
    lines: &mut Observations,
) -> Result<Option<bool>, NoMemory>
    requires ready { IsReady replica.old event.now (D.images disk.old) }
    ensures does { IfOk result (λ due. (s : Scene) (r : ℕ) (o : OpenReplica) → AgreesOn replica.old o (D.images disk.old) → Ready s r event.now o → order ≡ length_of (order_of s.position.machine r) → Done s (Takes r event.now (closing_lines closing)) (how_taken due) r (left_open due replica.new) (D.images disk.new) lines.old lines.new) }
    ensures cut { (s : Scene) (r : ℕ) (o : OpenReplica) → AgreesOn replica.old o (D.images disk.old) → Ready s r event.now o → Cut s (Takes r event.now (closing_lines closing)) r (D.images disk.new) }
    ensures cause { Counted (D.faults disk.old) (D.faults disk.new) (result ≡ Ok None) }
    ensures marks { D.marks disk.new ≡ D.marks disk.old }
{
    let id = replica.id();
    let shown = replica.shown();
    let was_active = stays_active(event, is_active(replica.role()));
    let contents = inspection(alloc, replica, event)?;
    match step(replica, disk, event) {
        Ok(outcome) => {
            let due = outcome.barrier_due;
            let known = order.saturating_sub(shown) as usize;
            tell(
                id, known, shown, was_active, outcome, contents, closing, lines,
            )?;
            Ok(Some(due))
        }
        Err(StepError::Disk) => {
            lines.push(Observation::Fault(id))?;
            Ok(None)
        }
        Err(StepError::NoMemory) => Err(NoMemory),
    }
}
