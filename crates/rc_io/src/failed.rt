use thiserror::Error;

/// A fault: a source or a sink didn't do what was asked. Its count of faults rose in the call.
#[derive(Clone, Copy, Debug, PartialEq, Eq, Error)]
#[error("failed")]
pub struct Failed;
