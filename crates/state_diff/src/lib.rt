//! What changes from one listing of a container's instances to the next.
#![tactic(auto)]

mod differ;
mod instance;
pub mod laws;
mod seen;

pub use differ::{Changes, Differ};
pub use instance::KILLED;
pub use seen::{CriState, Seen};
