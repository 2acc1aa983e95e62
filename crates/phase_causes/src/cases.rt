//! Which case of the rules gives a pod its phase.

ghost use Rattle.std.specs.Prelude.{◌≡◌, ◌↔◌, IsTrue};
ghost use Rattle.manifest.specs.declared.pod.Role.TheVariants.{App};
ghost use Rattle.phase.specs.rule.Facts.{HasCompleted};
ghost use Rattle.phase.specs.rule.RawPhase.{AllApps};
ghost use Rattle.phase.specs.state.Restarts.{of_restart_view, Wants};
ghost use Rattle.phase_causes.specs.rule.Cases.{IsPhaseCase, phase_of};

use crate::sought::{Sought, first_sought};
use phase::{Phase, RestartView};

/// The case that gives a pod its phase; a container is told by its place among all containers, counted from 0.
#[derive(Clone, Copy, Debug, PartialEq, Eq)]
pub enum PhaseCase {
    /// Failed: this init container has failed, and is not restarted; it is the first such.
    InitFailed(usize),
    /// Pending: the pod waits for this container; it is the first such.
    Awaited(usize),
    /// Succeeded: each app container has exited with 0, and none is restarted.
    Completed,
    /// Failed: each app container has exited, none is restarted, and one exited with another code.
    Stopped,
    /// Running: this app container has not exited, or is restarted; it is the first such.
    Unfinished(usize),
}

impl PhaseCase {
    /// The phase that it gives.
    pub fn phase(self) -> Phase
        ensures { result ≡ phase_of self }
    {
        match self {
            PhaseCase::InitFailed(_) | PhaseCase::Stopped => Phase::Failed,
            PhaseCase::Awaited(_) => Phase::Pending,
            PhaseCase::Completed => Phase::Succeeded,
            PhaseCase::Unfinished(_) => Phase::Running,
        }
    }
}

/// The case of a pod with these containers.
pub fn phase_case(containers: &[RestartView]) -> PhaseCase
    ensures { IsPhaseCase of_restart_view Wants containers.now result }
{
    if let Some(place) = first_sought(containers, Sought::FailedForGood) {
        return PhaseCase::InitFailed(place);
    }
    if let Some(place) = first_sought(containers, Sought::Awaited) {
        return PhaseCase::Awaited(place);
    }
    if let Some(place) = first_sought(containers, Sought::NotStopped) {
        return PhaseCase::Unfinished(place);
    }
    if all_complete(containers) {
        PhaseCase::Completed
    } else {
        PhaseCase::Stopped
    }
}

/// Whether it is no app container, or has completed.
fn completes(container: &RestartView) -> bool
    ensures { IsTrue result ↔ (of_restart_view.is container.now App → HasCompleted of_restart_view container.now) }
{
    !container.view.is_app() || container.view.has_completed()
}

fn all_complete(containers: &[RestartView]) -> bool
    ensures { IsTrue result ↔ AllApps of_restart_view (HasCompleted of_restart_view) containers.now }
{
    containers.iter().all(|container| completes(container))
}
