//! The pods that are present on a node, and which of them is evicted first.
//! (Kubernetes, "Pod Lifecycle" and "Node-pressure Eviction".)
//!
//! A tick is handed to all pods together. Their pieces then go out to take it into their statuses, and
//! come back; and one pod at a time is evicted. What that makes of them is defined in the module `Pods` of `specs/`.
//!
//! While a piece is out, its number is its place among the pods for which a tick waits. Behind a pod that is gone that
//! is not the number of its pod, which it has again once it is back.
#![tactic(auto)]

mod each;
pub mod laws;
mod pods;

pub use pods::{AwaitedPods, NodePods, OpenPods};
