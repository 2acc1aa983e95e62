//! One eviction: the order that the victim gets, and whether it is carried out.

ghost use Rattle.std.specs.Prelude.{◌≡◌};
ghost use Rattle.eviction.specs.rule.Replay.{order_of, unless_recorded};

use manifest::PodSpec;
use node_config::NodeConfig;
use node_signals::ThresholdKey;
use pod_piece::EvictOrder;
use signals::ThresholdKind;

/// The eviction of a tick.
#[derive(Clone, Copy, Debug, PartialEq, Eq)]
pub struct Eviction {
    /// The number of the pod that is evicted.
    pub pod: usize,
    /// The order to evict it.
    pub order: EvictOrder,
}

/// The order to evict a pod at a moment, in seconds, for a threshold: a hard one leaves the pod no time, a soft one
/// its own grace period, but no longer than the node allows. (Kubernetes, "Node-pressure Eviction",
/// "Soft eviction thresholds" and "Hard eviction thresholds".)
pub fn order_for(config: &NodeConfig, pod: &PodSpec, at: u64, key: ThresholdKey) -> EvictOrder
    ensures { result ≡ order_of config.now pod.now at key }
{
    let grace = match key.kind {
        ThresholdKind::Hard => 0,
        ThresholdKind::Soft => pod
            .grace_period_seconds
            .get()
            .min(u64::from(config.eviction_max_pod_grace_period)),
    };
    EvictOrder {
        at,
        signal: key.signal,
        kind: key.kind,
        grace,
    }
}

/// The eviction that a choice of the rules leads to: it is carried out, unless the trace reports whom the node evicted.
pub fn unless_recorded(config: &NodeConfig, choice: Option<Eviction>) -> Option<Eviction>
    ensures { result ≡ unless_recorded config.now.evictions_recorded choice }
{
    if config.evictions_recorded {
        None
    } else {
        choice
    }
}
