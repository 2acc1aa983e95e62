//! Which pod is evicted in each tick. (Kubernetes, "Node-pressure Eviction".)
//!
//! The rule is defined in the module `Replay` of `specs/`, over all ticks of a node: their evictions are a list as
//! long, of each tick one or none, and each is determined by the ticks up to its own and by the evictions before it. No
//! index and no counter occurs in it. In words:
//!
//! ```text
//! served threshold ──┐
//! no pause ──────────┴─> heeded ──> the victim of its signal, among the pods
//!                                   that are present and have not ended ──> its order: moment, signal, grace
//! ```
//!
//! That is the choice of a tick. It is carried out, unless the trace says itself whom the node evicted: then the rules
//! evict nobody, and the choice is an event alone.
//!
//! What is promised of the rule itself stands in the module `Laws` of `specs/`: each list of ticks has one list of
//! evictions and no other; no pod is evicted twice, and who is evicted had not ended; each eviction has the threshold
//! that asked for it; and between two the node's pause passes, or it ends with the first one's pod.
//!
//! The code of this crate is small, since most of the rule is done elsewhere: `node_signals` says which threshold is
//! served, `ranking` and `node_pods` keep the victims in order, `node_rounds` carries the eviction out. Here are
//! [`Evictions`], which keeps a node's evictions and the one by which others pause, and [`order_for`], the order that a
//! victim gets.
#![tactic(auto)]

mod eviction;
mod evictions;
pub mod laws;
mod over;

pub use eviction::{Eviction, order_for, unless_recorded};
pub use evictions::Evictions;
