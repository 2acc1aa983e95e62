//! What a tick shows of one container.

use manifest::Outcome;
use state_diff::Seen;

/// What a tick shows of one container.
#[derive(Clone, Copy, Debug, PartialEq, Eq)]
pub struct ContainerObs {
    /// The instance that the tick lists, if it lists one.
    pub seen: Option<Seen>,
    /// The results of its probes, in the order startup, liveness, readiness, where the tick has
    /// one.
    pub results: [Option<Outcome>; 3],
}
