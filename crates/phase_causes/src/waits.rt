//! Why an app container has not finished.

ghost use Rattle.phase.specs.state.Restarts.{of_restart_view, Wants};
ghost use Rattle.phase.specs.state.Facts.{IsRunning};
ghost use Rattle.phase_causes.specs.rule.Unfinished.{IsUnfinished};

use phase::RestartView;

/// Why a container has not finished.
#[derive(Clone, Copy, Debug, PartialEq, Eq)]
pub enum Unfinished {
    /// It is restarted after its exit with this code.
    Restarting(i32),
    /// It runs.
    Running,
    /// It has not started yet, or its newest instance hasn't.
    Waiting,
}

/// Why a container that has not stopped has not.
pub fn why_unfinished(container: RestartView) -> Unfinished
    ensures { IsUnfinished of_restart_view (λ c. IsRunning c.view) container result }
{
    match container.view.exit_code() {
        Some(code) => Unfinished::Restarting(code),
        None if container.view.is_running() => Unfinished::Running,
        None => Unfinished::Waiting,
    }
}
