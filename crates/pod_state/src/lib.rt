//! What the ticks make of one pod: its phase, its conditions and the statuses of its containers.
//! (Kubernetes, "Pod Lifecycle".)
#![tactic(auto)]

mod events;
mod following;
mod gates;
pub mod laws;
mod lifecycle;
mod state;

pub use containers::{ContainerStatus, PodEventKind};
pub use events::PodEvent;
pub use following::listed_in;
pub use lifecycle::Lifecycle;
pub use state::PodState;
