//! The state of a container.

ghost use Rattle.std.specs.Prelude.{◌≡◌};
ghost use Rattle.phase.specs.state.Views.{shown_as, state_shown};

use crate::view::ContainerView;
use state_diff::CriState;

/// The state of a container. (Kubernetes, "Pod Lifecycle", "Container states".)
#[derive(Clone, Copy, Debug, PartialEq, Eq)]
pub enum ContainerState {
    /// None of its instances was listed yet, or the newest has not started.
    Waiting,
    /// The newest instance is running.
    Running,
    /// The newest instance has exited, or is no longer listed.
    Terminated,
}

/// The state of a container, by its newest instance.
pub fn container_state(view: &ContainerView) -> ContainerState
    ensures { result ≡ state_shown view.now.seen }
{
    match view.seen {
        None => ContainerState::Waiting,
        Some(seen) => state_of(seen.state),
    }
}

/// How the state of an instance is shown.
fn state_of(state: CriState) -> ContainerState
    ensures { result ≡ shown_as state }
{
    match state {
        CriState::Created | CriState::Unknown => ContainerState::Waiting,
        CriState::Running => ContainerState::Running,
        CriState::Exited => ContainerState::Terminated,
    }
}
