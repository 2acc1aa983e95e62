//! What led to a restart: what decides that it follows an exit, and how the exits so far give its delay. (Kubernetes,
//! "Pod Lifecycle", "Container restart policy" and "Individual container restart policy and rules".)
#![tactic(auto)]

mod decision;
mod exit_count;
pub mod laws;

pub use decision::{Decider, Decision, decision_after};
pub use exit_count::{ExitCount, capped_by, counted, doublings};
