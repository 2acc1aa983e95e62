//! The QoS class of a pod, and its effective request of a resource.
#![tactic(auto)]

mod class;
mod container;
pub mod laws;
mod pod;
mod requests;
mod resized;

pub use class::{Qos, qos_class};
pub use pod::{pod_class, pod_request};
pub use requests::effective_request;
