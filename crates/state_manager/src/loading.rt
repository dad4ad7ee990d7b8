ghost use Rattle.std.specs.Prelude.{◌≡◌, ◌≤◌, ℕ, List, All, true, Some, IfOk, OnOk, IsErrOf};
ghost use Rattle.provider_law.specs.Replies.{AreRows, contents_of};
ghost use Rattle.provider_law.specs.declared.error.LoadError.TheVariants.{Bad};
ghost use Rattle.coll_laws.specs.Rising.{AreRising};
ghost use Rattle.state_manager.specs.Chains.{seen, AreKept};
ghost use Rattle.state_manager.specs.Managed.{told_by, IsLoaded};

use crate::chain::Chain;
use crate::names::Chains;
use coll_model::Collection;
use provider_law::{LoadError, StateProvider};
use rc_base::Lsn;
use std::alloc::Global;
use std::collections::BTreeMap;

// The collections that an image tells, each made at the version.
pub(crate) fn load_all<P: StateProvider>(
    alloc: Global,
    v: Lsn,
    image: &[Collection],
) -> Result<Chains<P>, LoadError>
    requires served { All (λ one. P.has one.kind ≡ true) image.now }
    requires rising { AreRising (told_by image.now) }
    ensures rows { OnOk result (All (λ one. AreRows one.kind one.rows) image.now) }
    ensures loaded { IfOk result (λ chains. IsLoaded P.least P.view v.0 (told_by image.now) chains.entries) }
    ensures bad { IsErrOf result Bad → All (λ one. AreRows one.kind one.rows) image.now → ⊥ }
{
    let mut chains = BTreeMap::new(alloc);
    for one in image {
        let chain = Chain::load(alloc, v, one)?;
        chains.insert(one.name.clone()?, chain)?;
    }
    Ok(chains)
}
