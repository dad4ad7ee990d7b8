use crate::call::Call;
use crate::replicas::Replicas;
use rc_base::{Epoch, ReplicaId};

/// One event of a script: what a client asks of a replica, or what happens to the world. There is one variant for each
/// form of sentence that is built so far, with the sentence's words as its fields, in order; those of the clients are
/// the variants of `Call`, and of these the ones on a key the variants of `KeyCall`.
#[derive(Drop)]
pub enum Event {
    /// `boot P MEMBERS`: opens the members and starts epoch 0.1 with P as its primary.
    Boot(ReplicaId, Replicas),
    /// A client's call at a replica.
    Client(ReplicaId, Call),
    /// `arm R K`: the K-th later call of R's disk fails, and every later one.
    Arm(ReplicaId, u64),
    /// `crash R PICK`: R is closed, and its disk keeps what the pick says of what wasn't synced.
    Crash(ReplicaId, u64),
    /// `reboot R`: opens R again.
    Reboot(ReplicaId),
    /// `inspect R`: prints what R shows.
    Inspect(ReplicaId),
    /// `survey R E`: R refuses epochs below E from then on, and tells how far its log reaches.
    Survey(ReplicaId, Epoch),
    /// `appoint E P MEMBERS`: P becomes the primary of epoch E with these members.
    Appoint(Epoch, ReplicaId, Replicas),
    /// `activate E`: the configuration that was appointed in E takes the place of the one before.
    Activate(Epoch),
}
