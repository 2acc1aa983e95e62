//! What a node keeps that is not halted, and its rounds but for the updates of its pods. (Kubernetes, "Pod Lifecycle"
//! and "Node-pressure Eviction".)
//!
//! A round is begun with a tick, goes on with more of them up to the next in which a threshold is heeded, and sends the
//! pieces of the pods out, beside the book. Who has updated them gives them back, and the round is ended, with the
//! eviction of one pod at most. No thread is started here: who updates the pods is `tick_round`'s, and `node_report`
//! needs to know nothing of it.
//!
//! ```text
//! begin   a tick's samples into the node's signals, observations into the pods
//! go on   the same with each further tick; then the pods for which ticks wait, and the book, go out
//! end     pods and book come back; the events are added, tick after tick; one pod at most is evicted
//! ```
//!
//! What it keeps is said of all its ticks at once (`HasTaken`, in the module `Node` of `specs/`), and a round leads
//! from `HasTaken` of some to that of these and those (`IsNextBy`).
#![tactic(auto)]

mod evict;
mod running;
mod stretch;
mod summary;

pub use evict::{carry_out, choice_for};
pub use running::Running;
pub use stretch::Round;
pub use summary::{ConditionStatus, Summary};
