//! The report of a node, as text: what happened, and what its pods and its conditions have come to.
#![tactic(auto)]

pub mod laws;
mod node_text;
mod pod_text;
mod report;

pub use report::report_text;
