//! What happens to a node in a tick.

use crate::condition::NodeCondition;
use crate::key::ThresholdKey;

/// What happened to a node by the samples of its signals. (Kubernetes, "Node-pressure Eviction".)
#[derive(Clone, Copy, Debug, PartialEq, Eq)]
pub enum NodeEvent {
    /// A threshold became active, or was cleared.
    Threshold {
        key: ThresholdKey,
        active: bool,
    },
    /// A condition became true, or is no longer.
    Pressure {
        condition: NodeCondition,
        value: bool,
    },
    /// A threshold was due, and the node freed enough by itself.
    Reclaim {
        key: ThresholdKey,
    },
}
