//! What happens on a node.

use eviction::Eviction;
use node_signals::NodeEvent;
use pod_state::PodEvent;

/// Something that happened on a node in a tick.
#[derive(Clone, Copy, Debug, PartialEq, Eq)]
pub struct Event {
    /// The moment of the tick, in seconds.
    pub at: u64,
    /// What happened.
    pub kind: EventKind,
}

/// To whom it happened, and what.
#[derive(Clone, Copy, Debug, PartialEq, Eq)]
pub enum EventKind {
    /// To the pod with this number, or to one of its containers. (Kubernetes, "Pod Lifecycle".)
    Pod { number: usize, event: PodEvent },
    /// To the node. (Kubernetes, "Node-pressure Eviction".)
    Node(NodeEvent),
    /// A pod was evicted. (Kubernetes, "Node-pressure Eviction".)
    Evicted(Eviction),
    /// The rules would evict a pod, on a node whose trace reports itself whom it evicted.
    Named(Eviction),
}
