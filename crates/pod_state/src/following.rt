//! The containers of a pod, one tick after the other.

ghost use Rattle.std.specs.Prelude.{◌≡◌, ◌≢◌, ◌↔◌, ◌<◌, ℕ, List, [], ◌∷◌, ◌++◌, length, slice_get, unwrap_or};
ghost use Rattle.std.specs.Prelude.{IsTrue, IfOk, option_map};
ghost use Rattle.quantity.specs.rule.Duration.{end_of_time};
ghost use Rattle.manifest.specs.declared.pod.ContainerSpec.{ContainerSpec};
ghost use Rattle.manifest.specs.declared.pod.PodSpec.{PodSpec};
ghost use Rattle.manifest.specs.declared.pod.Role.TheVariants.{Init};
ghost use Rattle.containers.specs.rule.Ticks.{ContainerTick};
ghost use Rattle.containers.specs.rule.Probed.{IsContainerReady};
ghost use Rattle.containers.specs.state.Container.{Accepts, IsBefore, IsStateOf};
ghost use Rattle.pod_state.specs.rule.Pods.{PodTick, pod_tick, unseen, AllReady};
ghost use Rattle.pod_state.specs.state.Pods.{IsViewOf, AreViewsOf};
ghost use Rattle.pod_state.specs.state.Listings.{listed_in, AreAcceptable, AreListed};
ghost use Rattle.pod_state.specs.state.Containers.{IsContainerOf, AreContainersOf, AreShown, own_restarts_of};
ghost use Rattle.pod_state.specs.rule.Events.{IsMadeOf, AreMade};
ghost use Rattle.pod_state.specs.state.States.{AllAccept, AllBefore};

use containers::{Container, ContainerEvents, ContainerStatus};
use manifest::{ContainerSpec, MaxRestartDelay, OwnRestarts, PodSpec};
use observations::{ContainerObs, PodObs};
use phase::RestartView;
use state_diff::{Differ, Seen};
use std::alloc::{AllocError, Global};

/// The containers of a pod that no tick has shown yet.
pub(crate) fn first_containers(
    alloc: Global,
    specs: &[ContainerSpec],
    max_restart_delay: MaxRestartDelay,
) -> Result<Vec<Container>, AllocError>
    ensures { IfOk result (λ v. (pod : PodSpec) → pod.containers ≡ specs.now
        → AreContainersOf pod max_restart_delay [] v.items) }
{
    let mut containers = Vec::with_capacity(alloc, specs.len())?;
    for spec in specs {
        let container = Container::new(spec, max_restart_delay);
        containers.push(container)?;
    }
    Ok(containers)
}

/// What the tick shows of the container with the number.
fn shown_of(observed: &PodObs, number: usize) -> ContainerObs
    ensures { result ≡ unwrap_or (slice_get observed.now.containers number) unseen }
{
    match observed.container(number) {
        Some(shown) => shown,
        None => ContainerObs {
            seen: None,
            results: [None, None, None],
        },
    }
}

/// The containers of a pod after a tick, and the events of each in it.
#[derive(Drop)]
pub(crate) struct AllStepped {
    pub(crate) containers: Vec<Container>,
    pub(crate) made: Vec<ContainerEvents>,
}

/// What the container with the number has of its own to decide on its restarts.
fn own_restarts_of(pod: &PodSpec, number: usize) -> Option<&OwnRestarts>
    ensures { option_map (λ o. o.now) result ≡ own_restarts_of pod.now number }
{
    pod.containers.as_slice().get(number)?.own_restarts()
}

/// A tick comes, with what it shows of the container of the pod, which has this number: the container's events in it.
pub(crate) fn step(
    container: &mut Container,
    pod: &PodSpec,
    observed: &PodObs,
    number: usize,
) -> ContainerEvents
    requires accepted { Accepts container.old (unwrap_or (slice_get observed.now.containers number) unseen).seen }
    requires later { IsBefore container.old observed.now.at }
    requires bounded { observed.now.at < end_of_time }
    ensures state { (pod : PodSpec) (max_restart_delay : ℕ) (h : List PodTick)
        → IsContainerOf pod max_restart_delay h number container.old
        → IsContainerOf pod max_restart_delay (h ++ pod_tick observed.now ∷ []) number container.new }
    ensures made { (max_restart_delay : ℕ) (h : List PodTick)
        → IsContainerOf pod.now max_restart_delay h number container.old
        → IsMadeOf pod.now max_restart_delay h (pod_tick observed.now) number result }
{
    let shown = shown_of(observed, number);
    let own = own_restarts_of(pod, number);
    container.step(pod.policy, own, observed.at(), shown)
}

/// The containers after one tick more.
pub(crate) fn next_containers(
    alloc: Global,
    containers: &[Container],
    pod: &PodSpec,
    observed: &PodObs,
) -> Result<AllStepped, AllocError>
    requires accepted { AllAccept containers.now observed.now.containers }
    requires later { AllBefore containers.now observed.now.at }
    requires bounded { observed.now.at < end_of_time }
    ensures count { IfOk result (λ next. length next.containers.items ≡ length containers.now) }
    ensures containers { IfOk result (λ next. (pod : PodSpec) (max_restart_delay : ℕ) (h : List PodTick)
        → AreContainersOf pod max_restart_delay h containers.now
        → AreContainersOf pod max_restart_delay (h ++ pod_tick observed.now ∷ []) next.containers.items) }
    ensures made { IfOk result (λ next. (max_restart_delay : ℕ) (h : List PodTick)
        → AreContainersOf pod.now max_restart_delay h containers.now
        → AreMade pod.now max_restart_delay h (pod_tick observed.now) next.made.items) }
{
    let mut all = Vec::with_capacity(alloc, containers.len())?;
    let mut made = Vec::with_capacity(alloc, containers.len())?;
    for (number, container) in containers.iter().enumerate() {
        let mut next = *container;
        let events = step(&mut next, pod, observed, number);
        all.push(next)?;
        made.push(events)?;
    }
    Ok(AllStepped {
        containers: all,
        made,
    })
}

/// The container of the pod, which has this number, as the rules on phases see it.
pub(crate) fn view_of(container: &Container, pod: &PodSpec, number: usize) -> RestartView
    ensures { (max_restart_delay : ℕ) (h : List PodTick)
        → IsContainerOf pod.now max_restart_delay h number container.now → IsViewOf pod.now h number result }
{
    container.restart_view(pod.policy, own_restarts_of(pod, number))
}

/// The containers of the pod as the rules on phases see them.
pub(crate) fn views_of(
    alloc: Global,
    containers: &[Container],
    pod: &PodSpec,
) -> Result<Vec<RestartView>, AllocError>
    ensures { IfOk result (λ v. (max_restart_delay : ℕ) (h : List PodTick)
        → AreContainersOf pod.now max_restart_delay h containers.now → AreViewsOf pod.now h v.items) }
{
    let mut views = Vec::with_capacity(alloc, containers.len())?;
    for (number, container) in containers.iter().enumerate() {
        views.push(view_of(container, pod, number))?;
    }
    Ok(views)
}

/// Shows each container in its place; `is_ended` is whether the node has ended the pod.
pub(crate) fn show(containers: &[Container], is_ended: bool, statuses: &mut Vec<ContainerStatus>)
    requires { length statuses.old.items ≡ length containers.now }
    ensures { (pod : PodSpec) (max_restart_delay : ℕ) (h : List PodTick)
        → AreContainersOf pod max_restart_delay h containers.now
        → AreShown pod (IsTrue is_ended) h statuses.new.items }
{
    for (number, container) in containers.iter().enumerate() {
        statuses[number] = container.status(is_ended);
    }
}

/// Writes the differ of each container in its place.
pub(crate) fn list(containers: &[Container], differs: &mut Vec<Differ>)
    requires { length differs.old.items ≡ length containers.now }
    ensures { (pod : PodSpec) (max_restart_delay : ℕ) (h : List PodTick)
        → AreContainersOf pod max_restart_delay h containers.now → AreListed pod h differs.new.items }
{
    for (number, container) in containers.iter().enumerate() {
        differs[number] = container.differ();
    }
}

/// What is listed of the container with the number.
pub fn listed_in(observed: &PodObs, number: usize) -> Option<Seen>
    ensures { result ≡ listed_in observed.now.containers number }
{
    shown_of(observed, number).seen
}

/// Whether each listing may come next.
pub(crate) fn are_acceptable(containers: &[Container], observed: &PodObs) -> bool
    ensures { (pod : PodSpec) (max_restart_delay : ℕ) (h : List PodTick)
        → AreContainersOf pod max_restart_delay h containers.now
        → (IsTrue result ↔ AreAcceptable pod h observed.now.containers) }
{
    for (number, container) in containers.iter().enumerate() {
        if !container.accepts(listed_in(observed, number)) {
            return false;
        }
    }
    true
}

/// Whether the container is ready, or an init container.
fn is_ready_or_init(container: &Container) -> bool
    ensures { (spec : ContainerSpec) (max_restart_delay : ℕ) (h : List ContainerTick)
        → IsStateOf spec max_restart_delay h container.now
        → (IsTrue result ↔ (spec.role ≢ Init → IsContainerReady spec h)) }
{
    container.view().is_init() || container.is_ready()
}

/// Whether all app containers and sidecars are ready.
pub(crate) fn all_ready(containers: &[Container]) -> bool
    ensures { (pod : PodSpec) (max_restart_delay : ℕ) (h : List PodTick)
        → AreContainersOf pod max_restart_delay h containers.now → (IsTrue result ↔ AllReady pod h) }
{
    for container in containers {
        if !is_ready_or_init(container) {
            return false;
        }
    }
    true
}
