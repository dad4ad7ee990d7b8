ghost use Rattle.std.specs.Prelude.{◌≡◌};

/// The mode of a lock, from the weakest on.
#[derive(Clone, Copy, Debug, PartialEq, Eq)]
pub enum LockMode {
    /// To read: others may read, and another may prepare to write.
    Shared,
    /// To read and perhaps to write: who reads already may go on, and nobody else may begin to.
    Update,
    /// To write: nobody else holds the name.
    Exclusive,
}

impl LockMode {
    ghost use Rattle.key_locks.specs.Grants as modes;

    // Whether another transaction's request may be granted beside a grant in this mode.
    pub(crate) fn allows(self, asked: LockMode) -> bool
        ensures { result ≡ modes.allows self asked }
    {
        matches!(
            (self, asked),
            (LockMode::Shared, LockMode::Shared | LockMode::Update)
        )
    }

    pub(crate) fn stronger(self, other: LockMode) -> LockMode
        ensures { result ≡ modes.stronger self other }
    {
        match (self, other) {
            (LockMode::Exclusive, _) | (_, LockMode::Exclusive) => LockMode::Exclusive,
            (LockMode::Update, _) | (_, LockMode::Update) => LockMode::Update,
            (LockMode::Shared, LockMode::Shared) => LockMode::Shared,
        }
    }
}
