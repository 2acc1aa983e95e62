//! The differs that follow the containers, one tick after the other.

ghost use Rattle.std.specs.Prelude.{◌↔◌, ◌<◌, [], length, IsTrue, IfOk, IsSome, Some};
ghost use Rattle.std.specs.Prelude.{Vec};
ghost use Rattle.observations.specs.rule.Observations.{shown_of};
ghost use Rattle.following.specs.state.Followed.{HasFollowed, HasNewPod, MayFollow, HasNewTick, Tells};
ghost use Rattle.following.specs.state.Steps.{AreNew, AreAccepted, PodsAreAccepted, Follow, HaveTaken, PodHasTaken};
ghost use Rattle.following.specs.state.Steps.{PodsFollow, PodsHaveTaken, Takes, Follows};

use observations::{TickObs, seen_of};
use state_diff::{Differ, Seen};
use std::alloc::{AllocError, Global};

/// Follows each container of each pod, as the pod's own ticks leave it.
#[derive(Drop)]
pub struct ListingOrder {
    differs: Vec<Vec<Differ>>,
}

impl ListingOrder {
    /// No pods and no ticks yet. Doesn't allocate.
    pub fn new(alloc: Global) -> ListingOrder
        ensures { HasFollowed [] [] result }
    {
        ListingOrder {
            differs: Vec::new(alloc),
        }
    }

    /// Appends a pod with this many containers. No tick so far shows it.
    pub fn with_pod(self, alloc: Global, containers: usize) -> Result<ListingOrder, AllocError>
        ensures { IfOk result (HasNewPod self containers) }
    {
        let new = new_differs(alloc, containers)?;
        let mut differs = self.differs;
        differs.push(new)?;
        Ok(ListingOrder { differs })
    }

    /// Whether each listing of the tick may come after its container's earlier ones. Doesn't allocate.
    pub fn accepts(&self, tick: &TickObs) -> bool
        ensures { Tells result self.now tick.now }
    {
        pods_accept(&self.differs, tick)
    }

    /// Follows the tick, each of whose listings may come next. Doesn't allocate.
    pub fn step(&mut self, tick: &TickObs)
        requires { MayFollow self.old tick.now }
        ensures { HasNewTick self.old tick.now self.new }
    {
        step_pods(&mut self.differs, tick);
    }
}

/// The differs of a pod that no tick has shown yet.
fn new_differs(alloc: Global, count: usize) -> Result<Vec<Differ>, AllocError>
    ensures { IfOk result (λ v. AreNew count v.items) }
{
    Ok(vec![in alloc; Differ::new(); count]?)
}

/// Whether each listing of the pod with the number may come next.
fn pod_accepts(differs: &[Differ], tick: &TickObs, pod: usize) -> bool
    ensures { IsTrue result ↔ AreAccepted tick.now pod differs.now (length differs.now) }
{
    for (container, differ) in differs.iter().enumerate() {
        if !differ.accepts(seen_of(tick, pod, container)) {
            return false;
        }
    }
    true
}

/// Whether each listing of each pod may come next.
fn pods_accept(differs: &[Vec<Differ>], tick: &TickObs) -> bool
    ensures { IsTrue result ↔ PodsAreAccepted tick.now differs.now (length differs.now) }
{
    for (pod, of_pod) in differs.iter().enumerate() {
        if !pod_accepts(of_pod.as_slice(), tick, pod) {
            return false;
        }
    }
    true
}

/// Whether the tick shows the pod with the number.
fn is_shown(tick: &TickObs, pod: usize) -> bool
    ensures { IsTrue result ↔ IsSome (shown_of tick.now pod) }
{
    match tick.pods.as_slice().get(pod) {
        Some(shown) => shown.is_some(),
        None => false,
    }
}

/// The differs of the pod with the number follow the tick.
fn step_pod(differs: &mut Vec<Differ>, tick: &TickObs, pod: usize)
    requires { Follow tick.now pod differs.old.items }
    ensures { HaveTaken tick.now pod differs.old.items differs.new.items }
{
    for container in 0..differs.len() {
        let seen = seen_of(tick, pod, container);
        differs[container] = differs[container].after(tick.at, seen);
    }
}

/// They do where the tick shows the pod.
fn step_shown(differs: &mut Vec<Differ>, tick: &TickObs, pod: usize)
    requires { IsSome (shown_of tick.now pod) → Follow tick.now pod differs.old.items }
    ensures { PodHasTaken tick.now pod differs.old.items differs.new.items }
{
    if is_shown(tick, pod) {
        step_pod(differs, tick, pod);
    }
}

/// The differs of each pod that the tick shows follow it.
fn step_pods(differs: &mut Vec<Vec<Differ>>, tick: &TickObs)
    requires { PodsFollow tick.now differs.old.items }
    ensures { PodsHaveTaken tick.now (length differs.old.items) differs.old.items differs.new.items }
{
    for pod in 0..differs.len() {
        step_shown(&mut differs[pod], tick, pod);
    }
}
