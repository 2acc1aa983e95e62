//! A pod's phase by the newest instance of each container, the pod's conditions, and the states of
//! its containers. (Kubernetes, "Pod Lifecycle".)
#![tactic(auto)]

mod conditions;
mod container;
pub mod laws;
mod phase;
mod restart_view;
mod view;

pub use conditions::{Condition, Conditions, Values};
pub use container::{ContainerState, container_state};
pub use phase::{Phase, are_initialized, raw_phase};
pub use restart_view::{RestartView, are_initialized_by, raw_phase_by};
pub use view::ContainerView;
