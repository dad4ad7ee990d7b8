use rc_base::{ReplicaId, Seq};

/// Replicas as a script lists them: in any order, and perhaps one of them twice.
pub type Replicas = Seq<ReplicaId>;
