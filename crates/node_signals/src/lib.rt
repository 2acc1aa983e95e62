//! What the samples of a node's signals make of the node: which of its thresholds are active and due, on which one it
//! acts, and which of its conditions are true. (Kubernetes, "Node-pressure Eviction".)
//!
//! A `NodeSignals` takes one tick after the other and keeps none of them. The definitions of its answers are in
//! `specs/`, over the whole list of ticks.
#![tactic(auto)]

mod condition;
mod event;
mod events;
mod key;
pub mod laws;
mod node;
mod pressures;
mod watches;

pub use condition::NodeCondition;
pub use event::NodeEvent;
pub use key::ThresholdKey;
pub use node::NodeSignals;
