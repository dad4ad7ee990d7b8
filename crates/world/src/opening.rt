ghost use Rattle.std.specs.Prelude.{◌≡◌, ◌++◌, ◌∷◌, [], IfOk, IfSome, Ok, None};
ghost use Rattle.rc_base.specs.Counts.{Counted};
ghost use Rattle.disk_model.specs.Disk.{Each, Follows};
ghost use Rattle.log_store.specs.declared.kept.Kept.{Kept as Log};
ghost use Rattle.log_store.specs.Durable.{durable};
ghost use Rattle.log_store.specs.Store.{KeepsOrBegins};
ghost use Rattle.order_machine.specs.declared.observation.Observation.TheVariants as says;
ghost use Rattle.rc_base.specs.Ids.{no_epoch};
ghost use Rattle.txn_front.specs.Front.{nothing};
ghost use Rattle.replica_model.specs.declared.role.Role.TheVariants.{Other};
ghost use Rattle.txn_table.specs.Whole.{stable_in};
ghost use Rattle.world.specs.World.{IsOpen};

use disk_model::CrashDisk;
use log_store::RecoverError;
use order_machine::{Observation, Observations};
use rc_base::{NoMemory, ReplicaId};
use replica::Replica;
use std::alloc::Global;

// Opens replica 0 over its disk, which holds a log or none, and tells so. None where the disk failed, which is told then.
pub(crate) fn open_replica<M: CrashDisk>(
    alloc: Global,
    id: ReplicaId,
    disk: &mut M,
    lines: &mut Observations,
) -> Result<Option<Replica>, NoMemory>
    requires first { id ≡ 0 }
    requires readable { Each (M.images disk.old) (λ c. (log : Log) × (durable c ≡ Ok log)) }
    ensures opened { IfOk result (λ o. IfSome o (λ r. (log : Log) × IsOpen r log (M.images disk.new) × (r.stable.0 ≡ stable_in log.records))) }
    ensures fresh { IfOk result (λ o. IfSome o (λ r. (r.role ≡ Other) × (r.front ≡ nothing no_epoch))) }
    ensures told { IfOk result (λ o. IfSome o (λ r. lines.new ≡ lines.old ++ says.Up 0 ∷ says.View 0 r.shown ∷ [])) }
    ensures faulted { result ≡ Ok None → lines.new ≡ lines.old ++ says.Fault 0 ∷ [] }
    ensures stop { Follows (KeepsOrBegins 0) (M.images disk.old) (M.images disk.new) }
    ensures cause { Counted (M.faults disk.old) (M.faults disk.new) (result ≡ Ok None) }
    ensures marks { M.marks disk.new ≡ M.marks disk.old }
{
    match Replica::mount(alloc, disk, id, 0) {
        Ok((replica, outcome)) => {
            lines.push(Observation::Up(id))?;
            lines.push(Observation::View(id, outcome.shown))?;
            Ok(Some(replica))
        }
        Err(RecoverError::Disk) => {
            lines.push(Observation::Fault(id))?;
            Ok(None)
        }
        Err(RecoverError::NoMemory) => Err(NoMemory),
        Err(RecoverError::Corrupt { .. }) => unreachable!(),
    }
}
