//! Which results of a container's probes led to a kill, to readiness and its end, and to the pass of startup.
//! (Kubernetes, "Configure Liveness, Readiness and Startup Probes"; "Pod Lifecycle", "Types of probe".)
//!
//! The definitions say it of all ticks of one instance. The code keeps the moments of the results that belong, and cuts
//! the causes of an event from their end.
#![tactic(auto)]

pub mod laws;
mod moments;
mod result_moments;

pub use result_moments::ResultMoments;
