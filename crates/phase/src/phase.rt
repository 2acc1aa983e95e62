//! The phase of a pod, and what it is by the containers alone.

ghost use Rattle.std.specs.Prelude.{◌≡◌, ◌↔◌, All, Any, IsTrue};
ghost use Rattle.manifest.specs.declared.policy.Policy.TheVariants.{Never};
ghost use Rattle.manifest.specs.declared.pod.Role.TheVariants.{App};
ghost use Rattle.phase.specs.rule.Facts.{HasFailed, HasCompleted};
ghost use Rattle.phase.specs.state.Facts.{of_view};
ghost use Rattle.phase.specs.rule.RawPhase.{AllApps, AnyApp, IsStarting, IsTerminal, AreInitialized};
ghost use Rattle.phase.specs.state.PolicyPhase.{IsRawPhase, HasFinished, IsFailedInit, InitHasFailed};
ghost use Rattle.phase.specs.state.PolicyPhase.{HaveFinished, HaveSucceeded, HaveFailed};

use crate::view::ContainerView;
use manifest::Policy;

/// The phase of a pod. (Kubernetes, "Pod Lifecycle", "Pod phase".)
#[derive(Clone, Copy, Debug, PartialEq, Eq)]
pub enum Phase {
    /// Some init container has not completed, some sidecar was never started, or some app container
    /// has not been set up.
    Pending,
    /// All containers have been set up, and some app container still runs or is to be restarted.
    Running,
    /// All app containers have exited with 0, and none is to be restarted.
    Succeeded,
    /// All app containers have exited, none is to be restarted, and some failed; or an init
    /// container failed for good; or the pod was evicted.
    Failed,
}

impl Phase {
    /// Whether a pod of this phase has ended.
    pub fn is_terminal(self) -> bool
        ensures { IsTrue result ↔ IsTerminal self }
    {
        matches!(self, Phase::Succeeded | Phase::Failed)
    }
}

/// Whether the pod's restart policy is `Never`.
fn is_never(policy: Policy) -> bool
    ensures { IsTrue result ↔ (policy ≡ Never) }
{
    matches!(policy, Policy::Never)
}

fn is_failed_init(container: &ContainerView) -> bool
    ensures { IsTrue result ↔ IsFailedInit of_view container.now }
{
    container.is_init() && container.has_failed()
}

fn is_failed_app(container: &ContainerView) -> bool
    ensures { IsTrue result ↔ (of_view.is container.now App × HasFailed of_view container.now) }
{
    container.is_app() && container.has_failed()
}

/// Whether it is no app container, or has finished.
fn finishes(policy: Policy, container: &ContainerView) -> bool
    ensures { IsTrue result ↔ (of_view.is container.now App → HasFinished of_view policy container.now) }
{
    !container.is_app() || container.has_finished(policy)
}

/// Whether it is no app container, or has completed.
fn completes(container: &ContainerView) -> bool
    ensures { IsTrue result ↔ (of_view.is container.now App → HasCompleted of_view container.now) }
{
    !container.is_app() || container.has_completed()
}

fn any_failed_init(containers: &[ContainerView]) -> bool
    ensures { IsTrue result ↔ Any (IsFailedInit of_view) containers.now }
{
    containers.iter().any(|container| is_failed_init(container))
}

fn any_failed_app(containers: &[ContainerView]) -> bool
    ensures { IsTrue result ↔ AnyApp of_view (HasFailed of_view) containers.now }
{
    containers.iter().any(|container| is_failed_app(container))
}

fn all_complete(containers: &[ContainerView]) -> bool
    ensures { IsTrue result ↔ AllApps of_view (HasCompleted of_view) containers.now }
{
    containers.iter().all(|container| completes(container))
}

fn have_finished(policy: Policy, containers: &[ContainerView]) -> bool
    ensures { IsTrue result ↔ HaveFinished of_view policy containers.now }
{
    containers
        .iter()
        .all(|container| finishes(policy, container))
}

fn init_has_failed(policy: Policy, containers: &[ContainerView]) -> bool
    ensures { IsTrue result ↔ InitHasFailed of_view policy containers.now }
{
    is_never(policy) && any_failed_init(containers)
}

fn is_starting(containers: &[ContainerView]) -> bool
    ensures { IsTrue result ↔ IsStarting of_view containers.now }
{
    containers.iter().any(|container| container.is_awaited())
}

fn have_succeeded(policy: Policy, containers: &[ContainerView]) -> bool
    ensures { IsTrue result ↔ HaveSucceeded of_view policy containers.now }
{
    have_finished(policy, containers) && all_complete(containers)
}

fn have_failed(policy: Policy, containers: &[ContainerView]) -> bool
    ensures { IsTrue result ↔ HaveFailed of_view policy containers.now }
{
    have_finished(policy, containers) && any_failed_app(containers)
}

/// The phase of a pod with these containers by the present alone: a pod that has ended keeps its
/// phase, which only the pod's history knows. (Kubernetes, "Pod Lifecycle", "Pod phase".)
pub fn raw_phase(policy: Policy, containers: &[ContainerView]) -> Phase
    ensures { IsRawPhase of_view policy containers.now result }
{
    if init_has_failed(policy, containers) {
        Phase::Failed
    } else if is_starting(containers) {
        Phase::Pending
    } else if have_succeeded(policy, containers) {
        Phase::Succeeded
    } else if have_failed(policy, containers) {
        Phase::Failed
    } else {
        Phase::Running
    }
}

/// Whether the pod is initialized: every init container has completed, and every sidecar was
/// started. (Kubernetes, "Pod Lifecycle", "Pod conditions"; "Init Containers".)
pub fn are_initialized(containers: &[ContainerView]) -> bool
    ensures { IsTrue result ↔ AreInitialized of_view containers.now }
{
    containers
        .iter()
        .all(|container| container.has_initialized())
}
