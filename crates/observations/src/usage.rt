//! What a pod uses of its node.

use quantity::Quantity;

/// The samples in a tick of a pod's use of the node, by which pods are ranked for eviction. A sample that the tick
/// lacks is `None`. (Kubernetes, "Node-pressure Eviction", "Pod selection for kubelet eviction".)
#[derive(Clone, Copy, Debug, PartialEq, Eq)]
pub struct Usage {
    /// Memory, in bytes.
    pub memory: Option<Quantity>,
    /// Local volumes, in bytes.
    pub volumes: Option<Quantity>,
    /// Logs of the containers, in bytes.
    pub logs: Option<Quantity>,
    /// Writable layers of the containers, in bytes.
    pub writable: Option<Quantity>,
    /// How many inodes are in use.
    pub inodes: Option<Quantity>,
    /// How many processes run.
    pub pids: Option<Quantity>,
}

/// Whether and how a tick samples a pod's use of the node.
#[derive(Clone, Copy, Debug, PartialEq, Eq)]
pub enum Sampling {
    /// The tick has nothing of it.
    Unsaid,
    /// From this tick on it has none, until one comes. (This project's extended format.)
    Unsampled,
    /// A sample was taken with the tick.
    Sampled(Usage),
}
