use versioned_store::Versions;

/// A dictionary at versions.
#[derive(Drop)]
pub struct Dict {
    pub(crate) versions: Versions,
}
