//! What a node's recorder saw: of a container, of a pod and of the node, tick by tick.
#![tactic(auto)]

mod container;
mod containers;
mod limits;
mod packed_container;
mod packed_containers;
mod pod;
mod reason;
mod resize;
mod tick;
mod usage;
mod whole;
mod words;

pub use container::ContainerObs;
pub use limits::{MOST_PODS, MOST_TICKS};
pub use pod::PodObs;
pub use reason::EndReason;
pub use resize::{Resize, resized_to};
pub use tick::{TickObs, seen_of};
pub use usage::{Sampling, Usage};
pub use words::{NO_GATES, NO_WORDS, PodWords};
