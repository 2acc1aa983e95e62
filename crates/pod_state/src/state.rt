//! A pod, tick by tick.

ghost use Rattle.std.specs.Prelude.{◌≡◌, ◌↔◌, ◌<◌, ℕ, List, [], ◌∷◌, ◌++◌, length, Option, Some, None, IsTrue};
ghost use Rattle.std.specs.Prelude.{◌||◌, IfOk, OnOk, OnErr, vec_len};
ghost use Rattle.quantity.specs.rule.Duration.{end_of_time};
ghost use Rattle.histories.specs.rule.Histories.{recorded};
ghost use Rattle.manifest.specs.declared.pod.PodSpec.{PodSpec};
ghost use Rattle.phase.specs.rule.RawPhase.{IsTerminal};
ghost use Rattle.pod_state.specs.rule.Pods.{PodEntry, PodTick, pod_tick, IsEnd, counted, EndsByNode, says_failed};
ghost use Rattle.pod_state.specs.state.Pods.{AreViewsOf};
ghost use Rattle.pod_state.specs.rule.Containers.{AreStatusesOf};
ghost use Rattle.pod_state.specs.state.Containers.{AreContainersOf};
ghost use Rattle.pod_state.specs.rule.Events.{AreMade};
ghost use Rattle.pod_state.specs.rule.Lifecycles.{IsLifecycleOf};
ghost use Rattle.pod_state.specs.state.Lifecycles.{IsProgressOf};
ghost use Rattle.pod_state.specs.state.Listings.{AreAcceptable, AreListed};
ghost use Rattle.pod_state.specs.state.States.{before_of, HasContainers, IsStateOf, LeadsTo, MakesEvents, MayFollow};

use crate::events::{PodEvent, events_of, phase_event};
use crate::following::{
    all_ready, are_acceptable, first_containers, list, next_containers, show, step, view_of,
    views_of,
};
use crate::gates::GateStatuses;
use crate::lifecycle::Lifecycle;
use containers::{Container, ContainerEvents, ContainerStatus};
use manifest::{MaxRestartDelay, PodSpec};
use observations::PodObs;
use phase::RestartView;
use state_diff::Differ;
use std::alloc::{AllocError, Global};

/// A pod as its ticks so far leave it: its containers, its phase and its conditions. It keeps none
/// of the ticks. (Kubernetes, "Pod Lifecycle".)
#[derive(Drop)]
pub struct PodState {
    containers: Vec<Container>,
    lifecycle: Lifecycle,
    /// The phase and the conditions before the last tick, which its eviction starts from.
    before: Lifecycle,
    /// Whether it is being deleted.
    deleting: bool,
    /// The statuses of the conditions that its readiness gates name.
    gates: GateStatuses,
}

/// Whether a pod is being deleted after a tick, that was before it or was not.
fn deleting_with(before: bool, observed: &PodObs) -> bool
    ensures { result ≡ (before || observed.now.words.deleting) }
{
    before || observed.deleting()
}

/// Whether the tick reports that the node has ended the pod with it.
fn says_failed(observed: &PodObs) -> bool
    ensures { result ≡ says_failed (pod_tick observed.now) }
{
    observed.failed().is_some()
}

/// Whether a pod is leaving: it is being deleted, or the tick reports that the node has ended it.
fn is_leaving(deleting: bool, failed: bool) -> bool
    ensures { result ≡ (deleting || failed) }
{
    deleting || failed
}

impl PodState {
    /// A pod that no tick has shown yet, on a node with this maximum restart delay. Returns `Err` if an allocation
    /// fails.
    pub fn new(
        alloc: Global,
        spec: &PodSpec,
        max_restart_delay: MaxRestartDelay,
    ) -> Result<PodState, AllocError>
        ensures state { IfOk result (λ state. (evicted : Option ℕ)
            → IsStateOf spec.now max_restart_delay evicted [] state) }
        ensures before { IfOk result (λ state. (evicted : Option ℕ)
            → IsProgressOf spec.now evicted [] (before_of state)) }
    {
        let containers = first_containers(alloc, spec.containers.as_slice(), max_restart_delay)?;
        let views = views_of(alloc, &containers, spec)?;
        let lifecycle = Lifecycle::new(&views);
        Ok(PodState {
            containers,
            lifecycle,
            before: lifecycle,
            deleting: false,
            gates: GateStatuses::new(&spec.gates),
        })
    }

    /// The phase and the conditions.
    pub fn lifecycle(&self) -> Lifecycle
        ensures { result ≡ self.now.lifecycle }
    {
        self.lifecycle
    }

    /// Takes a tick that doesn't evict the pod and shows this of it, at a moment before `END_OF_TIME`. Returns the
    /// events of the tick. The pod ends if the tick reports that the node has ended it. Once it has ended, only the
    /// tick's moment is looked at. After an `Err` the pod is as it was.
    pub fn take(
        &mut self,
        alloc: Global,
        pod: &PodSpec,
        observed: &PodObs,
    ) -> Result<Vec<PodEvent>, AllocError>
        requires follows { MayFollow self.old observed.now.at observed.now.containers }
        requires bounded { observed.now.at < end_of_time }
        ensures ok { OnOk result (LeadsTo pod.now (pod_tick observed.now) self.old self.new) }
        ensures before { OnOk result (before_of self.new ≡ self.old.lifecycle) }
        ensures events { IfOk result (λ v. MakesEvents pod.now (pod_tick observed.now) self.old v.items) }
        ensures err { OnErr result (self.new ≡ self.old) }
    {
        let mut lifecycle = self.lifecycle;
        if lifecycle.has_ended() {
            lifecycle.advance(observed.at(), &[], false, false, false);
            self.before = self.lifecycle;
            self.lifecycle = lifecycle;
            self.deleting = deleting_with(self.deleting, observed);
            self.gates = self.gates.next(observed);
            return Ok(Vec::new(alloc));
        }
        // Most pods have one or two containers: these take their steps on the stack, and only events take memory.
        if self.containers.len() == 1 {
            let mut next = [self.containers[0]];
            let made = [step(&mut next[0], pod, observed, 0)];
            let views = [view_of(&next[0], pod, 0)];
            return self.settle(alloc, pod, observed, &next, &made, &views);
        }
        if self.containers.len() == 2 {
            let mut next = [self.containers[0], self.containers[1]];
            let made = [
                step(&mut next[0], pod, observed, 0),
                step(&mut next[1], pod, observed, 1),
            ];
            let views = [view_of(&next[0], pod, 0), view_of(&next[1], pod, 1)];
            return self.settle(alloc, pod, observed, &next, &made, &views);
        }
        let all = next_containers(alloc, &self.containers, pod, observed)?;
        let (next, made) = (&all.containers, &all.made);
        let views = views_of(alloc, next, pod)?;
        self.settle(alloc, pod, observed, next, made, &views)
    }

    /// Ends a tick that leaves the containers so, as these views show them, and has made this of them, and gives the
    /// events of the tick. An `Err` changes nothing.
    fn settle(
        &mut self,
        alloc: Global,
        pod: &PodSpec,
        observed: &PodObs,
        next: &[Container],
        made: &[ContainerEvents],
        views: &[RestartView],
    ) -> Result<Vec<PodEvent>, AllocError>
        requires lives { IsTerminal self.old.lifecycle.phase → ⊥ }
        requires count { vec_len self.old.containers ≡ length next.now }
        requires containers { (pod : PodSpec) (max_restart_delay : ℕ) (h : List PodTick)
            → AreContainersOf pod max_restart_delay h self.old.containers.items
            → AreContainersOf pod max_restart_delay (h ++ pod_tick observed.now ∷ []) next.now }
        requires made { (max_restart_delay : ℕ) (h : List PodTick)
            → AreContainersOf pod.now max_restart_delay h self.old.containers.items
            → AreMade pod.now max_restart_delay h (pod_tick observed.now) made.now }
        requires views { (max_restart_delay : ℕ) (h : List PodTick)
            → AreContainersOf pod.now max_restart_delay h next.now → AreViewsOf pod.now h views.now }
        ensures ok { OnOk result (LeadsTo pod.now (pod_tick observed.now) self.old self.new) }
        ensures before { OnOk result (before_of self.new ≡ self.old.lifecycle) }
        ensures events { IfOk result (λ v. MakesEvents pod.now (pod_tick observed.now) self.old v.items) }
        ensures err { OnErr result (self.new ≡ self.old) }
    {
        let ready = all_ready(next);
        let mut lifecycle = self.lifecycle;
        let gates = self.gates.next(observed);
        let failed = says_failed(observed);
        lifecycle.advance(observed.at(), views, ready, gates.are_true(), failed);
        let change = phase_event(self.lifecycle.phase, lifecycle.phase);
        let deleting = deleting_with(self.deleting, observed);
        let leaving = is_leaving(deleting, failed);
        let events = events_of(alloc, made, lifecycle.phase, leaving, change)?;
        self.before = self.lifecycle;
        self.containers.copy_from_slice(next);
        self.lifecycle = lifecycle;
        self.deleting = deleting;
        self.gates = gates;
        Ok(events)
    }

    /// The pod, which had not ended before the tick that came last, is evicted by that tick, at the moment, and ends
    /// with it. It makes no event.
    pub fn evict(&mut self, at: u64)
        requires { IsTerminal (before_of self.old).phase → ⊥ }
        ensures state { (pod : PodSpec) (max_restart_delay : ℕ) (h : List PodTick) (entry : PodEntry)
            → IsLifecycleOf pod None h (before_of self.old)
            → IsProgressOf pod (Some (length h)) h (before_of self.old)
            → IsStateOf pod max_restart_delay None (h ++ recorded at entry ∷ []) self.old
            → IsStateOf pod max_restart_delay (Some (length h)) (h ++ recorded at entry ∷ []) self.new }
        ensures ends { (pod : PodSpec) (max_restart_delay : ℕ) (h : List PodTick) (entry : PodEntry)
            → IsLifecycleOf pod None h (before_of self.old)
            → IsProgressOf pod (Some (length h)) h (before_of self.old)
            → IsStateOf pod max_restart_delay None (h ++ recorded at entry ∷ []) self.old
            → IsEnd pod (Some (length h)) (h ++ recorded at entry ∷ []) (Some (length h)) }
    {
        self.lifecycle = self.before.evicted(at, &self.lifecycle);
    }

    /// Writes the status of each container, by number, in its place; `is_ended` is whether the node has ended the pod.
    pub fn show(&self, is_ended: bool, statuses: &mut Vec<ContainerStatus>)
        requires { HasContainers (length statuses.old.items) self.now }
        ensures { (pod : PodSpec) (max_restart_delay : ℕ) (evicted end : Option ℕ) (h : List PodTick)
            → IsEnd pod evicted h end
            → (IsTrue is_ended ↔ EndsByNode evicted h end)
            → IsStateOf pod max_restart_delay evicted h self.now
            → AreStatusesOf pod evicted h statuses.new.items }
    {
        show(&self.containers, is_ended, statuses);
    }

    /// Writes the instance tracker of each container, by number, in its place: the state by the listings that count.
    pub fn list(&self, differs: &mut Vec<Differ>)
        requires { HasContainers (length differs.old.items) self.now }
        ensures { (pod : PodSpec) (max_restart_delay : ℕ) (evicted end : Option ℕ) (h : List PodTick)
            → IsEnd pod evicted h end
            → IsStateOf pod max_restart_delay evicted h self.now
            → AreListed pod (counted h end) differs.new.items }
    {
        list(&self.containers, differs);
    }

    /// Whether each listing of the observation may come next, of a pod that has not ended.
    pub fn accepts(&self, observed: &PodObs) -> bool
        requires { IsTerminal self.now.lifecycle.phase → ⊥ }
        ensures { (pod : PodSpec) (max_restart_delay : ℕ) (evicted : Option ℕ) (h : List PodTick)
            → IsStateOf pod max_restart_delay evicted h self.now
            → (IsTrue result ↔ AreAcceptable pod h observed.now.containers) }
    {
        are_acceptable(&self.containers, observed)
    }
}
