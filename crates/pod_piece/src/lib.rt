//! One pod as an owned value: its specification, all that was handed to it, and what the rules make
//! of that. (Kubernetes, "Pod Lifecycle" and "Node-pressure Eviction".)
//!
//! A [`PodPiece`] is what moves between threads. It shares nothing with other pieces, it is one pointer, and its
//! contracts speak of its history alone: what it shows after an update is what the definitions say of all that was
//! handed to it, whoever updated it and wherever. So a worker needs to know no rule, and that the pods of a tick may be
//! updated in any order needs no proof.
//!
//! ```text
//! hand(observation)    a tick's observation goes behind the history; the piece is pending
//! update()             it comes into the status; events() are those of this tick
//! evict(order)         the last tick evicts the pod, whose status is Failed from then on
//! ```
//!
//! By the invariant of the type each counter in it is the state of the history beside it: probes' counters, back-off,
//! conditions and their moments, the newest samples of the pod's use, the requests and limits of its containers.
//! `status()` promises `IsStatusOf`, over the whole history; `events()` promises `AreLastEvents`. An update for which
//! there is no memory gives the piece back as it was.
//!
//! A [`Gate`] makes the updates of a round: the program's counts them, those of tests hold them back.
#![tactic(auto)]

mod gate;
mod listings;
mod made;
mod order;
mod piece;
mod resources;
mod status;
mod usage;

pub use gate::{Gate, NoGate};
pub use made::MadeTick;
pub use order::EvictOrder;
pub use piece::{PodPiece, Refused, piece_at};
pub use pod_state::{ContainerStatus, PodEvent, PodEventKind};
pub use status::{EffectiveRequests, NewestUsage, PodFailure, PodStatus};
