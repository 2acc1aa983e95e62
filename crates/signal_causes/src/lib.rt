//! What led to the events of a node's signals: since when a threshold is active and due, and when a condition was last
//! met. (Kubernetes, "Node-pressure Eviction".)
//!
//! The definitions say it over all samples, or observations, so far; the code keeps moments.
#![tactic(auto)]

mod last_met;
pub mod laws;
mod watched_threshold;

pub use last_met::LastMet;
pub use watched_threshold::WatchedThreshold;
