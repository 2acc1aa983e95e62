//! The startup, liveness and readiness probes of one container. (Kubernetes, "Configure Liveness, Readiness and Startup
//! Probes"; "Pod Lifecycle", "Container probes".)
//!
//! The definitions are about the ticks of one instance with its start, oldest first. That something comes true in a
//! tick means that it holds of the ticks up to that one, and not of the ticks up to any earlier one.
#![tactic(auto)]

mod configured;
pub mod laws;
mod liveness;
mod outcome;
mod probe_set;
mod readiness;
mod run_length;
mod startup;

pub use outcome::belonging;
pub use probe_set::{Cause, ProbeSet, Verdicts};
