//! The events of a container in a tick.

ghost use Rattle.std.specs.Prelude.{◌≡◌, [], ◌∷◌};

use crate::pod_event_kind::PodEventKind;

/// What a tick makes of a container, by the places that its events have in the tick.
#[derive(Clone, Copy, Debug, PartialEq, Eq)]
pub struct ContainerEvents {
    /// An instance died because it is no longer listed.
    pub gone: Option<PodEventKind>,
    /// The listed instance started.
    pub started: Option<PodEventKind>,
    /// The listed instance died.
    pub died: Option<PodEventKind>,
    /// Its startup probe passed.
    pub passed: Option<PodEventKind>,
    /// It is to be killed.
    pub kill: Option<PodEventKind>,
    /// The container became ready, or is no longer.
    pub readiness: Option<PodEventKind>,
    /// The restart of the newest instance is backed off.
    pub backoff: Option<PodEventKind>,
    /// The restart of the newest instance falls due; it comes unless the pod has succeeded or
    /// failed.
    pub restart: Option<PodEventKind>,
}

impl ContainerEvents {
    /// The events in the order of their places.
    pub fn in_order(&self) -> [Option<PodEventKind>; 8]
        ensures { result ≡ self.now.gone ∷ self.now.started ∷ self.now.died ∷ self.now.passed
            ∷ self.now.kill ∷ self.now.readiness ∷ self.now.backoff ∷ self.now.restart ∷ [] }
    {
        [
            self.gone,
            self.started,
            self.died,
            self.passed,
            self.kill,
            self.readiness,
            self.backoff,
            self.restart,
        ]
    }
}
