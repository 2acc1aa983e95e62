//! What a tick has of a pod in addition to its listings and samples.

use crate::reason::EndReason;
use manifest::MOST_GATES;

/// The words of a tick on a pod. (This project's extended format.)
#[derive(Drop)]
pub struct PodWords {
    /// From this tick on the pod is being deleted. (Kubernetes, "Pod Lifecycle", "Termination of Pods".)
    pub deleting: bool,
    /// With this tick the node has ended the pod, for this reason. (Kubernetes, "Pod Lifecycle", "Pod phase".)
    pub failed: Option<EndReason>,
    /// The statuses, from this tick on, of the conditions that the pod's readiness gates name, by the gates' numbers,
    /// where the tick has them. (Kubernetes, "Pod Lifecycle", "Pod readiness".)
    pub gates: [Option<bool>; MOST_GATES],
}

/// No status of any condition.
pub const NO_GATES: [Option<bool>; MOST_GATES] = [None; MOST_GATES];

/// The words of a tick that has none on the pod.
pub const NO_WORDS: PodWords = PodWords {
    deleting: false,
    failed: None,
    gates: NO_GATES,
};
