//! The first container of some kind.

ghost use Rattle.std.specs.Prelude.{◌↔◌, IsTrue};
ghost use Rattle.histories.specs.rule.Histories.{IsFirstPlace};
ghost use Rattle.phase_causes.specs.rule.Cases.{IsAt};
ghost use Rattle.phase_causes.specs.state.Sought.{IsSought};

use phase::RestartView;

/// What is sought of a container.
#[derive(Clone, Copy, Debug, PartialEq, Eq)]
pub(crate) enum Sought {
    /// An init container that has failed, and is not restarted.
    FailedForGood,
    /// A container that the pod waits for.
    Awaited,
    /// An app container that has not exited, or is restarted.
    NotStopped,
}

fn is_sought(sought: Sought, container: &RestartView) -> bool
    ensures { IsTrue result ↔ IsSought sought container.now }
{
    match sought {
        Sought::FailedForGood => container.has_failed_for_good(),
        Sought::Awaited => container.view.is_awaited(),
        Sought::NotStopped => container.view.is_app() && !container.has_stopped(),
    }
}

/// The place of the first container that is sought.
pub(crate) fn first_sought(containers: &[RestartView], sought: Sought) -> Option<usize>
    ensures { IsFirstPlace (IsAt (IsSought sought) containers.now) result }
{
    for (place, container) in containers.iter().enumerate() {
        if is_sought(sought, container) {
            return Some(place);
        }
    }
    None
}
