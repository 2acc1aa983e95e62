//! Node lines of a trace: a node's configuration, in the words of a kubelet's.
#![tactic(auto)]

mod eviction;
mod fault;
pub mod laws;
mod limits;
mod maps;
mod node;
mod thresholds;

pub use fault::NodeFault;
pub use node::node_of;
