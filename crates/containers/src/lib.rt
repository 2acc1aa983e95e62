//! One container of a pod, tick by tick: its instances, its probes, its restarts and its events.
//! (Kubernetes, "Pod Lifecycle", "Container probes" and "Container restart policy".)
//!
//! A tick has its moment, what it lists of the container, and the results of its probes. The definitions speak of all
//! ticks of one container, oldest first.
#![tactic(auto)]

mod container;
mod events;
mod exits;
mod follow;
pub mod laws;
mod places;
mod pod_event_kind;
mod status;

pub use container::Container;
pub use events::ContainerEvents;
pub use pod_event_kind::PodEventKind;
pub use status::ContainerStatus;
