//! The lock table: which transaction holds which name, in which mode, and the first that stands in the way of a request.
#![tactic(auto)]

mod error;
mod held;
mod holders;
mod laws;
mod lock_mode;
mod lock_name;
mod locks;
mod rows;

pub use error::TakeError;
pub use laws::alike_grants_stay_alike;
pub use lock_mode::LockMode;
pub use lock_name::LockName;
pub use locks::Locks;
