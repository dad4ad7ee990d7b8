ghost use Rattle.std.specs.Prelude.{◌≡◌, position};
ghost use Rattle.std.specs.List.{list_all};
ghost use Rattle.rc_base.specs.Ids.{is_epoch, epoch_lt};
ghost use Rattle.config_rule.specs.Rule as rule;

use crate::answers::is_before;
use rc_base::{Epoch, Members, ReplicaId};

/// A lawful appointment.
#[derive(Drop)]
pub struct Appointment {
    /// The epoch that begins.
    pub epoch: Epoch,
    pub primary: ReplicaId,
    /// The previous configuration: the one last activated.
    pub pc: Members,
    /// The configuration of the epoch, which takes its place once it is activated.
    pub cc: Members,
}

// What is kept of an appointment. The primary of the boot isn't known.
#[derive(Drop)]
pub struct Appointed {
    pub epoch: Epoch,
    pub primary: Option<ReplicaId>,
    pub pc: Members,
    pub cc: Members,
    pub active: bool,
    pub activated: bool,
}

// Whether the epoch is above each appointed epoch.
pub fn is_above(appointed: &[Appointed], epoch: Epoch) -> bool
    ensures { result ≡ list_all (λ a. epoch_lt a.epoch epoch) appointed.now }
{
    appointed.iter().all(|a| is_before(a.epoch, epoch))
}

// Where the appointment of the epoch stands.
pub fn place_of(appointed: &[Appointed], epoch: Epoch) -> Option<usize>
    ensures { result ≡ position (λ a. is_epoch epoch a.epoch) appointed.now }
{
    appointed.iter().position(|a| epoch == a.epoch)
}

// Whether the epoch is the latest appointed.
pub fn is_latest(appointed: &[Appointed], epoch: Epoch) -> bool
    ensures { result ≡ rule.is_latest appointed.now epoch }
{
    appointed.last().is_some_and(|a| epoch == a.epoch)
}
