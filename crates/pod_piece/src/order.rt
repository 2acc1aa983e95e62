//! The order to evict a pod.

use signals::{Signal, ThresholdKind};

/// The order to evict a pod. (Kubernetes, "Node-pressure Eviction".)
#[derive(Clone, Copy, Debug, PartialEq, Eq)]
pub struct EvictOrder {
    /// The moment of the tick that evicts the pod, in seconds.
    pub at: u64,
    /// The signal of the threshold for which it is evicted.
    pub signal: Signal,
    /// The kind of that threshold.
    pub kind: ThresholdKind,
    /// How long the pod has to end by itself, in seconds.
    pub grace: u64,
}
