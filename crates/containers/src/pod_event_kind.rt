//! What may happen to a container or to a pod.

use phase::Phase;
use probes::Cause;

/// What happened to a container or to a pod in a tick. An attempt names an instance.
#[derive(Clone, Copy, Debug, PartialEq, Eq)]
pub enum PodEventKind {
    /// The attempt died, with this exit code: 137 if it is only no longer listed.
    Died { attempt: u32, exit_code: i32 },
    /// The attempt started.
    Started { attempt: u32 },
    /// The startup probe of the attempt passed.
    StartupPassed { attempt: u32 },
    /// The attempt is to be killed, since this probe failed.
    Kill { attempt: u32, cause: Cause },
    /// The container became ready.
    Ready,
    /// The container is no longer ready.
    Unready,
    /// The container is backed off: its restart comes this many seconds later.
    Backoff { delay: u64 },
    /// The exited attempt is started again.
    Restart { attempt: u32 },
    /// The pod has a new phase.
    Phase { phase: Phase },
}
