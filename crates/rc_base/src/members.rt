ghost use Rattle.std.specs.Prelude.{◌≡◌, ◌↔◌, ◌≤◌, ◌<◌, [], length, IfOk, IsErrOf, IsTrue, OnOk, Contains, Some, None, Err, ℕ, IsPermutation};
ghost use Rattle.std.specs.List.Sorted.{IsNonDecreasing, IsStrictlyIncreasing};
ghost use Rattle.rc_base.specs.declared.members.MembersError.TheVariants.{NoMemory};
ghost use Rattle.rc_base.specs.Members.{first_twice, AreMembers};

use crate::ids::ReplicaId;
use std::alloc::{AllocError, Global};
use std::marker::Model;
use thiserror::Error;

/// The members of a configuration: a rising list of replicas, so at most nine.
#[derive(Drop)]
pub struct Members {
    ids: Vec<ReplicaId>,
}

impl Model for Members {
    ghost use Rattle.std.specs.Prelude.{ℕ, List};
    ghost use Rattle.std.specs.List.Sorted.{IsStrictlyIncreasing};

    ghost Value = { List ℕ };

    ghost view = { λ m. m.ids.items };

    ghost invariant = { λ m. IsStrictlyIncreasing m.ids.items };
}

/// Why a list of replicas is no configuration.
#[derive(Clone, Copy, Debug, PartialEq, Eq, Error)]
pub enum MembersError {
    /// A replica stands in the list twice: the first that does.
    #[error("replica {} stands twice", .id.number())]
    Twice { id: ReplicaId },
    /// Out of memory.
    #[error("out of memory")]
    NoMemory,
}

impl From<AllocError> for MembersError {
    ghost from_gives = { λ _ e. e ≡ NoMemory };

    fn from(_e: AllocError) -> MembersError {
        MembersError::NoMemory
    }
}

impl Members {
    /// The replicas of a list as members, by rising number.
    ///
    /// # Errors
    /// `Twice` exactly where one stands twice, with the first that does; `NoMemory` where it is out of memory.
    pub fn from_slice(alloc: Global, ids: &[ReplicaId]) -> Result<Members, MembersError>
        ensures members { IfOk result (λ m. AreMembers ids.now m) }
        ensures distinct { OnOk result (first_twice ids.now ≡ None) }
        ensures twice { (id : ℕ) → IsErrOf result (MembersError.Twice id) → first_twice ids.now ≡ Some id }
        ensures twice_only { (id : ℕ) → first_twice ids.now ≡ Some id → result ≡ Err (MembersError.Twice id) }
    {
        if let Some(id) = find_twice(ids) {
            return Err(MembersError::Twice { id });
        }
        Ok(Members {
            ids: sorted(alloc, ids)?,
        })
    }

    pub fn as_slice(&self) -> &[ReplicaId]
        ensures value { result.now ≡ self.now }
        ensures rising { IsStrictlyIncreasing self.now }
    {
        &self.ids
    }

    pub fn len(&self) -> usize
        ensures { result ≡ length self.now }
    {
        self.ids.len()
    }

    pub fn is_empty(&self) -> bool
        ensures { IsTrue result ↔ (self.now ≡ []) }
    {
        self.ids.is_empty()
    }

    /// Whether the replica is a member.
    pub fn contains(&self, id: ReplicaId) -> bool
        ensures { IsTrue result ↔ Contains self.now id }
    {
        self.ids.contains(&id)
    }
}

impl Clone for Members {
    ghost is_clone = { λ x y. y ≡ x };

    fn clone(&self) -> Result<Members, AllocError> {
        Ok(Members {
            ids: self.ids.clone()?,
        })
    }
}

// The replicas of the list by rising number.
fn sorted(alloc: Global, ids: &[ReplicaId]) -> Result<Vec<ReplicaId>, AllocError>
    ensures same { IfOk result (λ v. IsPermutation ids.now v.items) }
    ensures in_order { IfOk result (λ v. IsNonDecreasing v.items) }
{
    let mut sorted = Vec::from_slice(alloc, ids)?;
    sorted.sort()?;
    Ok(sorted)
}

/// The first of the list that stands again after its place, or none where each stands once.
pub fn find_twice(ids: &[ReplicaId]) -> Option<ReplicaId>
    ensures { result ≡ first_twice ids.now }
{
    let mut rest = ids;
    while let Some((id, others)) = rest.split_first() {
        if others.contains(id) {
            return Some(*id);
        }
        rest = others;
    }
    None
}
