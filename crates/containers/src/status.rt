//! The status of a container.

use phase::ContainerState;

/// What a pod's status shows of a container. (Kubernetes, "Pod Lifecycle", "Container states".)
#[derive(Clone, Copy, Debug, PartialEq, Eq)]
pub struct ContainerStatus {
    /// Its state.
    pub state: ContainerState,
    /// The exit code of the newest instance, if it has exited.
    pub code: Option<i32>,
    /// The greatest attempt listed so far, and 0 before any.
    pub restarts: u32,
    /// Whether it is started and ready by its readiness probe, if it has one, in a pod that was not
    /// evicted.
    pub ready: bool,
    /// Whether it is an app container or a sidecar that is running and whose startup has passed, in
    /// a pod that was not evicted.
    pub started: bool,
}
