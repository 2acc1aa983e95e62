//! What led to a pod's phase: the case of the rules that holds, and the container that makes it hold. (Kubernetes, "Pod
//! Lifecycle", "Pod phase" and "Container restart policy".)
#![tactic(auto)]

mod cases;
pub mod laws;
mod sought;
mod waits;

pub use cases::{PhaseCase, phase_case};
pub use waits::{Unfinished, why_unfinished};
