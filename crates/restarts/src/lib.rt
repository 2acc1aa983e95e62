//! When an exited container is started again: the restart policy and the back-off.
#![tactic(auto)]

mod backoff;
pub mod laws;
mod own;
mod wanted;

pub use backoff::Backoff;
pub use own::{matches, policy_after, wants_restart_by};
pub use wanted::wants_restart;
