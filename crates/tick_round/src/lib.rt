//! A node that takes one tick after another: what each makes of its pods, its thresholds and its
//! conditions, which pod it evicts, and what happened. (Kubernetes, "Pod Lifecycle" and "Node-pressure
//! Eviction".)
//!
//! A round takes one tick, or several: those up to the next in which a threshold is heeded. Until then nobody is
//! evicted, and a pod depends on no other. The round is begun, then its pods are updated, then it is ended, with the
//! eviction of one pod at most. The updates are all that differs between the ways to take ticks: on one thread, by
//! workers that are played, or by workers in threads.
//!
//! ```text
//! begin   a tick's samples into the node's signals, observations into the pods
//! go on   the same with each further tick; then the pods for which ticks wait, and the book, go out
//! update  on one thread  |  by steps that are played, one tick  |  by workers that steal
//!         (`round_updates`)                                       (`pod_pool`)
//! end     pods and book come back; the events are added, tick after tick; one pod at most is evicted
//! ```
//!
//! What a node promises is said of all its ticks at once (`IsAfter`, in the module `Node` of `specs/`): the pods that
//! have arrived and the ticks that it took determine its evictions, its pods' statuses, its events, its totals and its
//! conditions. Each way to take ticks leads from `IsAfter` of some to `IsAfter` of these and those, by the same words
//! (`TakesTick`, `TakesTicks`): so the ways can't differ, and neither can any number of workers, nor how many ticks a
//! round takes. That is one at least; no clause says more of it.
//!
//! Where memory is refused within a round the node is halted: it takes no further tick and tells nothing, so that
//! nothing half done is ever told.
#![tactic(auto)]

mod advance;
mod fault;
mod node;
mod workers;

pub use fault::TickFault;
pub use node::Node;
pub use node_rounds::{ConditionStatus, Summary, carry_out, choice_for};
pub use played_round::Played;
pub use pod_piece::{Gate, NoGate};
pub use pod_pool::Spawner;
pub use round_core::laws;
pub use round_steps::Step;
pub use round_updates::{update_alone, update_by_steps};
pub use workers::update_by_workers;
