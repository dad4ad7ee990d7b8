ghost use Rattle.std.specs.Prelude.{◌≡◌, IfOk, None};
ghost use Rattle.rc_base.specs.Members.{first_twice, AreMembers};
ghost use Rattle.config_rule.specs.Rule as rule;

use rc_base::{Members, MembersError, NoMemory, ReplicaId, find_twice};
use std::alloc::Global;

// Whether the list is a configuration with that primary: distinct replicas, 1 to 9, that hold it.
pub fn are_members(members: &[ReplicaId], primary: ReplicaId) -> bool
    ensures { result ≡ rule.are_members members.now primary }
{
    find_twice(members).is_none()
        && !members.is_empty()
        && members.len() <= 9
        && members.contains(&primary)
}

// Distinct replicas as members.
pub fn distinct_members(alloc: Global, ids: &[ReplicaId]) -> Result<Members, NoMemory>
    requires { first_twice ids.now ≡ None }
    ensures { IfOk result (λ members. AreMembers ids.now members) }
{
    match Members::from_slice(alloc, ids) {
        Ok(members) => Ok(members),
        Err(MembersError::NoMemory) => Err(NoMemory),
        Err(MembersError::Twice { .. }) => unreachable!(),
    }
}
