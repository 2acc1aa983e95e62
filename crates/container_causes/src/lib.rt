//! What led to the events of a container. (Kubernetes, "Pod Lifecycle", "Types of probe" and "Container restart
//! policy"; "Configure Liveness, Readiness and Startup Probes".)
//!
//! The definitions say it over all ticks of the container. A [`WatchedContainer`] takes the ticks one by one, as a
//! `Container` does, and keeps what the causes need of the past.
#![tactic(auto)]

mod exits;
mod instance_results;
mod lacking;
pub mod laws;
mod listing_causes;
mod looked_up;
mod watched_container;

pub use exits::LastExit;
pub use lacking::Lacking;
pub use listing_causes::{Exited, Listed, Unlisted};
pub use watched_container::WatchedContainer;
