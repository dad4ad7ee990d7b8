use crate::commits::Commits;
use crate::txn_ids::TxnIds;
use config_rule::Appointment;
use events::{Answer, Call};
use rc_base::Epoch;

/// What happens at an open replica.
#[derive(Drop)]
pub enum StepEvent {
    /// A client's call.
    Client(Call),
    /// A survey: it refuses epochs below this one from then on, and tells how far its log reaches. It is no primary then.
    Survey { epoch: Epoch },
    /// The replica is appointed as the primary of an epoch.
    Appoint(Appointment),
    /// The configuration of the epoch was activated: its primary no longer needs quorums of the one before.
    Activate { epoch: Epoch },
    /// Behind a step of a primary that became active or shows more: it logs its stable position.
    Barrier,
    /// Nothing changes: what it shows is looked at.
    Inspect,
}

/// What a step tells: the answer to a call or a survey; the commits that are shown by it, in order; those that are acknowledged by
/// it; how many commits the replica shows then; whether it is an active primary; and whether a Barrier is to follow.
#[derive(Drop)]
pub struct Outcome {
    pub answer: Option<Answer>,
    pub commits: Commits,
    pub acknowledged: TxnIds,
    pub shown: u64,
    pub active: bool,
    pub barrier_due: bool,
}
