//! The phase of a pod whose containers decide each by itself whether they are restarted.

ghost use Rattle.std.specs.Prelude.{◌↔◌, Any, IsTrue};
ghost use Rattle.manifest.specs.declared.pod.Role.TheVariants.{App};
ghost use Rattle.phase.specs.rule.Facts.{HasCompleted, HasFailed};
ghost use Rattle.phase.specs.rule.RawPhase.{IsStarting, AllApps, AnyApp, HasInitialized, AreInitialized};
ghost use Rattle.phase.specs.rule.ByContainer.{HasStopped, HasFailedForGood, HaveStopped, IsRawPhaseBy};
ghost use Rattle.phase.specs.state.Restarts.{of_restart_view, Wants};

use crate::phase::Phase;
use crate::view::ContainerView;

/// A container, as its newest instance shows it, and whether the kubelet restarts it. (Kubernetes, "Pod Lifecycle",
/// "Container restart policy" and "Individual container restart policy and rules".)
#[derive(Clone, Copy, Debug, PartialEq, Eq)]
pub struct RestartView {
    pub view: ContainerView,
    /// Whether the newest instance has exited and a restart follows its exit, by the code of the exit.
    pub wants_restart: bool,
}

impl RestartView {
    /// Whether the newest instance has exited and no restart follows.
    pub fn has_stopped(&self) -> bool
        ensures { IsTrue result ↔ HasStopped of_restart_view Wants self.now }
    {
        self.view.exit_code().is_some() && !self.wants_restart
    }

    /// Whether it is an init container that has failed, and no restart follows.
    pub fn has_failed_for_good(&self) -> bool
        ensures { IsTrue result ↔ HasFailedForGood of_restart_view Wants self.now }
    {
        self.view.is_init() && self.view.has_failed() && !self.wants_restart
    }
}

/// Whether it is no app container, or has stopped.
fn stops(container: &RestartView) -> bool
    ensures { IsTrue result ↔ (of_restart_view.is container.now App → HasStopped of_restart_view Wants container.now) }
{
    !container.view.is_app() || container.has_stopped()
}

/// Whether it is no app container, or has completed.
fn completes(container: &RestartView) -> bool
    ensures { IsTrue result ↔ (of_restart_view.is container.now App → HasCompleted of_restart_view container.now) }
{
    !container.view.is_app() || container.view.has_completed()
}

fn is_failed_app(container: &RestartView) -> bool
    ensures { IsTrue result ↔ (of_restart_view.is container.now App × HasFailed of_restart_view container.now) }
{
    container.view.is_app() && container.view.has_failed()
}

fn any_failed_for_good(containers: &[RestartView]) -> bool
    ensures { IsTrue result ↔ Any (HasFailedForGood of_restart_view Wants) containers.now }
{
    containers
        .iter()
        .any(|container| container.has_failed_for_good())
}

fn any_failed_app(containers: &[RestartView]) -> bool
    ensures { IsTrue result ↔ AnyApp of_restart_view (HasFailed of_restart_view) containers.now }
{
    containers.iter().any(|container| is_failed_app(container))
}

fn all_complete(containers: &[RestartView]) -> bool
    ensures { IsTrue result ↔ AllApps of_restart_view (HasCompleted of_restart_view) containers.now }
{
    containers.iter().all(|container| completes(container))
}

fn have_stopped(containers: &[RestartView]) -> bool
    ensures { IsTrue result ↔ HaveStopped of_restart_view Wants containers.now }
{
    containers.iter().all(|container| stops(container))
}

fn is_starting(containers: &[RestartView]) -> bool
    ensures { IsTrue result ↔ IsStarting of_restart_view containers.now }
{
    containers
        .iter()
        .any(|container| container.view.is_awaited())
}

fn have_succeeded(containers: &[RestartView]) -> bool
    ensures { IsTrue result ↔ (HaveStopped of_restart_view Wants containers.now
        × AllApps of_restart_view (HasCompleted of_restart_view) containers.now) }
{
    have_stopped(containers) && all_complete(containers)
}

fn have_failed(containers: &[RestartView]) -> bool
    ensures { IsTrue result ↔ (HaveStopped of_restart_view Wants containers.now
        × AnyApp of_restart_view (HasFailed of_restart_view) containers.now) }
{
    have_stopped(containers) && any_failed_app(containers)
}

fn has_initialized(container: &RestartView) -> bool
    ensures { IsTrue result ↔ HasInitialized of_restart_view container.now }
{
    container.view.has_initialized()
}

/// Whether the pod is initialized: every init container has completed, and every sidecar was started. (Kubernetes, "Pod
/// Lifecycle", "Pod conditions"; "Init Containers".)
pub fn are_initialized_by(containers: &[RestartView]) -> bool
    ensures { IsTrue result ↔ AreInitialized of_restart_view containers.now }
{
    containers
        .iter()
        .all(|container| has_initialized(container))
}

/// The phase of a pod with these containers by the present alone: a pod that has ended keeps its phase, which only the
/// pod's history knows. (Kubernetes, "Pod Lifecycle", "Pod phase" and "Individual container restart policy and rules".)
pub fn raw_phase_by(containers: &[RestartView]) -> Phase
    ensures { IsRawPhaseBy of_restart_view Wants containers.now result }
{
    if any_failed_for_good(containers) {
        Phase::Failed
    } else if is_starting(containers) {
        Phase::Pending
    } else if have_succeeded(containers) {
        Phase::Succeeded
    } else if have_failed(containers) {
        Phase::Failed
    } else {
        Phase::Running
    }
}
