//! All candidates in the order in which they are evicted. (Kubernetes, "Node-pressure Eviction", "Pod selection for
//! kubelet eviction".)
//!
//! The rules evict the first of them; an explanation names them all.
#![tactic(auto)]

mod criterion;
pub mod laws;
mod ordered;
mod row;

pub use criterion::{Criterion, deciding};
pub use ordered::in_order;
pub use row::{CandidateRow, row_of};
