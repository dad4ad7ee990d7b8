ghost use Rattle.std.specs.Prelude.{◌≡◌};

use rc_base::{Bytes, Name};
use std::alloc::AllocError;
use std::hash::{Hash, Hasher};

/// What is locked.
#[derive(Drop)]
pub enum LockName {
    /// The name of a collection.
    Name(Name),
    /// A key of a dictionary.
    Key(Name, Bytes),
    /// The head of a queue.
    Head(Name),
    /// The tail of a queue.
    Tail(Name),
}

impl Clone for LockName {
    ghost is_clone = { λ x y. y ≡ x };

    fn clone(&self) -> Result<LockName, AllocError> {
        Ok(match self {
            LockName::Name(name) => LockName::Name(name.clone()?),
            LockName::Key(name, key) => LockName::Key(name.clone()?, key.clone()?),
            LockName::Head(name) => LockName::Head(name.clone()?),
            LockName::Tail(name) => LockName::Tail(name.clone()?),
        })
    }
}

impl PartialEq for LockName {
    ghost use Rattle.key_locks.specs.Names.{is_name};
    ghost use Rattle.std.specs.Cmp.{partial_equiv_from_equiv};
    ghost use Rattle.key_locks.specs.Equal.{is_name_equivalence};

    ghost eq = { is_name };

    ghost laws = { partial_equiv_from_equiv is_name_equivalence };

    fn eq(&self, other: &LockName) -> bool {
        match (self, other) {
            (LockName::Name(a), LockName::Name(b)) => a == b,
            (LockName::Key(a, k), LockName::Key(b, l)) => a == b && k == l,
            (LockName::Head(a), LockName::Head(b)) => a == b,
            (LockName::Tail(a), LockName::Tail(b)) => a == b,
            _ => false,
        }
    }
}

impl Eq for LockName {
    ghost use Rattle.key_locks.specs.Equal.{is_name_equivalence};

    ghost laws = { is_name_equivalence };
}

impl Hash for LockName {
    ghost use Rattle.key_locks.specs.Names.{is_name, hashed};
    ghost use Rattle.key_locks.specs.Equal.{same_names_hash_alike};

    ghost hash_input = { hashed };

    ghost respects_eq = { same_names_hash_alike };

    fn hash<H: Hasher>(&self, state: &mut H) {
        match self {
            LockName::Name(name) => {
                state.write_u8(0);
                name.as_slice().hash(state);
            }
            LockName::Key(name, key) => {
                state.write_u8(1);
                name.as_slice().hash(state);
                key.as_slice().hash(state);
            }
            LockName::Head(name) => {
                state.write_u8(2);
                name.as_slice().hash(state);
            }
            LockName::Tail(name) => {
                state.write_u8(3);
                name.as_slice().hash(state);
            }
        }
    }
}
