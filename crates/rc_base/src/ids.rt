ghost use Rattle.std.specs.Prelude.{◌≡◌, ◌<◌, ◌≤◌, ◌↔◌, IfSome, IfNone, IsSome};

use std::marker::Model;

/// The number of a configuration's term: by data losses declared first, then by reconfigurations. Epochs are
/// ordered by `loss` and then by `number`; 0.0 is the epoch before the first.
#[derive(Clone, Copy, Debug, PartialEq, Eq, PartialOrd, Ord, Hash)]
pub struct Epoch {
    pub loss: u32,
    pub number: u32,
}

/// A log sequence number: the place of a record in a replica's log, counted from 1. 0 is the place before the first.
#[derive(Clone, Copy, Debug, PartialEq, Eq, PartialOrd, Ord)]
pub struct Lsn(pub u64);

/// A transaction: the epoch of the primary that began it, and its number among the begins of that epoch, from 1.
#[derive(Clone, Copy, Debug, PartialEq, Eq, PartialOrd, Ord, Hash)]
pub struct TxnId {
    pub epoch: Epoch,
    pub n: u64,
}

/// The number of a replica, 0 to 8.
#[derive(Clone, Copy, Debug, PartialEq, Eq, PartialOrd, Ord)]
pub struct ReplicaId {
    number: u8,
}

impl Model for ReplicaId {
    ghost use Rattle.std.specs.Prelude.{ℕ, ◌<◌};

    ghost Value = { ℕ };

    ghost view = { λ r. r.number };

    ghost invariant = { λ r. r.number < 9 };

    ghost inverse = { λ n. record { number = n } };
}

impl ReplicaId {
    /// How many replicas there are at most.
    pub const COUNT: u8 = 9;

    /// The replica of a number, or none where the number is above 8.
    pub fn new(number: u8) -> Option<ReplicaId>
        ensures some { IfSome result (λ r. r ≡ number) }
        ensures valid { IsSome result ↔ (number < 9) }
    {
        if number < ReplicaId::COUNT {
            Some(ReplicaId { number })
        } else {
            None
        }
    }

    /// Its number, below 9.
    pub fn number(self) -> u8
        ensures value { result ≡ self }
        ensures valid { result < 9 }
    {
        self.number
    }
}
