//! What follows the exit of a container.

/// The `restartPolicy` of a pod: after which exits of its containers the kubelet starts them again.
/// (Kubernetes, "Pod Lifecycle", "Container restart policy".)
#[derive(Clone, Copy, Debug, PartialEq, Eq)]
pub enum Policy {
    /// After each exit.
    Always,
    /// After an exit with a code other than 0.
    OnFailure,
    /// After no exit.
    Never,
}
