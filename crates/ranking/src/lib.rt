//! The order in which pods are evicted under pressure, and an index that finds the first of them.
//! (Kubernetes, "Node-pressure Eviction", "Pod selection for kubelet eviction".)
//!
//! Which pod comes before which is defined in `specs/`; a pod's key and the index follow it.
#![tactic(auto)]

mod amounts;
mod index;
mod key;
pub mod laws;
mod present;

pub use amounts::{requested, used};
pub use index::RankIndex;
pub use key::{RankKey, rank_key};
