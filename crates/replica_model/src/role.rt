use rc_base::Epoch;

/// What a replica is in its configuration.
#[derive(Clone, Copy, PartialEq, Eq)]
pub enum Role {
    Other,
    /// The primary of an epoch. It serves clients once it is active.
    Primary { epoch: Epoch, active: bool },
}
