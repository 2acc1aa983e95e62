//! A pod with its history.

ghost use Rattle.std.specs.Prelude.{◌≡◌, ◌↔◌, ◌||◌, ◌<◌, ◌≤◌, ℕ, [], is_some, length, map, take, slice_get, Option};
ghost use Rattle.std.specs.Prelude.{Some, None, if◌then◌else◌};
ghost use Rattle.std.specs.Prelude.{IsTrue, IfOk, IfErr, OnOk, OnErr};
ghost use Rattle.quantity.specs.rule.Duration.{end_of_time};
ghost use Rattle.histories.specs.rule.Histories.{last_moment};
ghost use Rattle.pod_state.specs.rule.Pods.{pod_tick};
ghost use Rattle.pod_state.specs.state.States.{IsStateOf};
ghost use Rattle.pod_piece.specs.state.Listings.{MayComeNext, IsNextTick};
ghost use Rattle.pod_piece.specs.rule.Piece.{Piece, ticks, updated};
ghost use Rattle.pod_piece.specs.state.Piece.{new_piece, with_tick, with_eviction};
ghost use Rattle.pod_piece.specs.state.Piece.{with_number, at_rest};
ghost use Rattle.pod_piece.specs.state.Made.{round_length, AreEarlierEvents};
ghost use Rattle.pod_piece.specs.rule.Status.{failure_in};
ghost use Rattle.pod_piece.specs.state.Status.{IsStatusOf, IsEvictableAt, AreLastEvents};

use crate::listings::{first_differs, follow_on, may_come};
use crate::made::{MadeTick, begin_round, make_room, move_on};
use crate::order::EvictOrder;
use crate::resources::{first_resources, resize_while};
use crate::status::{EffectiveRequests, PodFailure, PodStatus};
use crate::usage::{newer_while, nothing};
use containers::ContainerStatus;
use lists::ChunkedList;
use manifest::{MaxRestartDelay, PodSpec};
use observations::PodObs;
use phase::ContainerState;
use pod_state::{PodEvent, PodState};
use qos::pod_class;
use state_diff::Differ;
use std::alloc::{AllocError, Global};
use std::marker::Model;
use std::mem::replace;

/// The eviction of a pod: the place of its tick in the pod's history, and the order.
#[derive(Clone, Copy, Debug, PartialEq, Eq)]
pub(crate) struct EvictionRecord {
    pub(crate) place: usize,
    pub(crate) order: EvictOrder,
}

/// The fields of a piece.
#[derive(Drop)]
struct Parts {
    alloc: Global,
    number: usize,
    pod: PodSpec,
    max_restart_delay: MaxRestartDelay,
    history: ChunkedList<PodObs>,
    waiting: usize,
    begun: usize,
    eviction: Option<EvictionRecord>,
    differs: Vec<Differ>,
    state: PodState,
    status: PodStatus,
    earlier: Vec<MadeTick>,
    events: Vec<PodEvent>,
}

/// One pod: its specification, its ticks so far, and what the rules make of them. By the invariant of the type each
/// counter is the state of the history that is kept with it. A piece is a pointer, and so cheap to move.
#[derive(Drop)]
pub struct PodPiece {
    parts: Box<Parts>,
}

impl Model for PodPiece {
    ghost use Rattle.pod_piece.specs.rule.Piece.{Piece};

    ghost Value = { Piece };

    ghost use Rattle.pod_piece.specs.state.Kept.{piece_of, AreKept};

    ghost view = { λ p. piece_of p.parts.value };

    ghost invariant = { λ p. AreKept p.parts.value };
}

/// A piece whose update failed because memory ran out.
#[derive(Drop)]
pub struct Refused {
    /// The piece as it was, still pending.
    pub piece: PodPiece,
}

/// What a status shows of a container that was never listed.
const UNLISTED: ContainerStatus = ContainerStatus {
    state: ContainerState::Waiting,
    code: None,
    restarts: 0,
    ready: false,
    started: false,
};

/// The status of a pod without ticks.
fn first_status(
    alloc: Global,
    number: usize,
    pod: &PodSpec,
    max_restart_delay: MaxRestartDelay,
    state: &PodState,
) -> Result<PodStatus, AllocError>
    requires { (e : Option ℕ) → IsStateOf pod.now max_restart_delay e [] state.now }
    ensures { IfOk result (IsStatusOf (new_piece number pod.now max_restart_delay)) }
{
    let count = pod.containers.as_slice().len();
    let mut containers = vec![in alloc; UNLISTED; count]?;
    state.show(false, &mut containers);
    let lifecycle = state.lifecycle();
    let resources = first_resources(alloc, pod.containers.as_slice())?;
    let requests = EffectiveRequests::of(pod, &resources);
    Ok(PodStatus {
        number,
        phase: lifecycle.phase,
        conditions: lifecycle.conditions,
        containers,
        class: pod_class(alloc, pod),
        resources,
        requests,
        usage: nothing(),
        priority: pod.priority,
        spared: pod.spared,
        order: None,
        failure: None,
    })
}

/// Notes how the node has ended a pod with the tick, if the tick reports it and counts.
fn note_failure(failure: &mut Option<PodFailure>, counts: bool, observed: &PodObs)
    ensures { failure.new ≡ (if counts then failure_in (pod_tick observed.now) else failure.old) }
{
    if !counts {
        return;
    }
    *failure = match observed.failed() {
        Some(reason) => Some(PodFailure {
            at: observed.at(),
            reason: reason.again(),
        }),
        None => None,
    };
}

/// Whether the node has ended a pod, by this eviction or as a tick reports.
fn is_ended_by_node(eviction: Option<EvictionRecord>, failure: &Option<PodFailure>) -> bool
    ensures { result ≡ (is_some eviction || is_some failure.now) }
{
    eviction.is_some() || failure.is_some()
}

/// The moment of the observation before the place, if there is one.
fn moment_before(history: &ChunkedList<PodObs>, place: usize) -> Option<u64>
    requires { place ≤ length history.now }
    ensures { result ≡ last_moment (map pod_tick (take place history.now)) }
{
    if place == 0 {
        return None;
    }
    Some(history.at(place - 1).at())
}

impl PodPiece {
    /// The pod with this number and specification, without ticks, on a node with this maximum restart delay. Returns
    /// `Err` if an allocation fails; the specification is then dropped.
    pub fn new(
        alloc: Global,
        number: usize,
        pod: PodSpec,
        max_restart_delay: MaxRestartDelay,
    ) -> Result<PodPiece, AllocError>
        ensures { IfOk result (λ piece. piece ≡ new_piece number pod max_restart_delay) }
    {
        let differs = first_differs(alloc, pod.containers.as_slice().len())?;
        let state = PodState::new(alloc, &pod, max_restart_delay)?;
        let status = first_status(alloc, number, &pod, max_restart_delay, &state)?;
        let parts = Parts {
            alloc,
            number,
            pod,
            max_restart_delay,
            history: ChunkedList::new(alloc),
            waiting: 0,
            begun: 0,
            eviction: None,
            differs,
            state,
            status,
            earlier: Vec::new(alloc),
            events: Vec::new(alloc),
        };
        Ok(PodPiece {
            parts: Box::new(alloc, parts)?,
        })
    }

    /// The pod's specification.
    pub fn pod(&self) -> &PodSpec
        ensures { result.now ≡ self.now.pod }
    {
        &self.parts.pod
    }

    /// Whether it has a tick that has not come into its status yet.
    pub fn pending(&self) -> bool
        ensures { IsTrue result ↔ 0 < self.now.waiting }
    {
        self.parts.waiting > 0
    }

    /// How many ticks have come into its status since its present round began. A round begins when a piece with no
    /// waiting tick gets one, and at `rest`.
    pub fn round_length(&self) -> usize
        ensures is { result ≡ round_length self.now }
        ensures few { result ≤ end_of_time }
    {
        let parts = &*self.parts;
        parts.history.len() - parts.waiting - parts.begun
    }

    /// The moment of the last update's tick, in seconds; none before the first.
    pub fn last_at(&self) -> Option<u64>
        ensures { result ≡ last_moment (ticks self.now) }
    {
        let parts = &*self.parts;
        moment_before(&parts.history, parts.history.len() - parts.waiting)
    }

    /// Whether the observation has one entry for each container, each with a listing that may come
    /// after all earlier ones of its container.
    pub fn accepts(&self, observed: &PodObs) -> bool
        requires { self.now.waiting ≡ 0 }
        ensures { IsTrue result ↔ MayComeNext self.now.pod self.now.handed observed.now.containers }
    {
        let parts = &*self.parts;
        observed.container_count() == parts.pod.containers.as_slice().len()
            && may_come(&parts.state, &parts.differs, observed)
    }

    /// Appends what a tick shows of the pod to its history; the tick waits until an update takes it. Returns `Err` if
    /// an allocation fails: the piece is then as it was, and the tick is dropped.
    pub fn hand(&mut self, observed: PodObs) -> Result<(), AllocError>
        requires { IsNextTick self.old.pod self.old.handed (pod_tick observed) }
        ensures ok { OnOk result (self.new ≡ with_tick self.old (pod_tick observed)) }
        ensures err { OnErr result (self.new ≡ self.old) }
    {
        let parts = &mut *self.parts;
        let handed = parts.history.len();
        parts.history.push(observed)?;
        parts.begun = begin_round(parts.waiting, handed, parts.begun, &mut parts.earlier);
        parts.waiting += 1;
        Ok(())
    }

    /// Applies the oldest waiting tick to its status. If an allocation fails, returns the piece as it was, so the tick
    /// still waits.
    pub fn update(mut self) -> Result<PodPiece, Refused>
        requires { 0 < self.waiting }
        ensures ok { IfOk result (λ piece. piece ≡ updated self) }
        ensures err { IfErr result (λ refused. refused.piece ≡ self) }
    {
        match self.update_in_place() {
            Ok(()) => Ok(self),
            Err(_) => Err(Refused { piece: self }),
        }
    }

    /// Applies the oldest waiting tick to its status, in place. Returns `Err` if an allocation fails; the piece is then
    /// as it was, so the tick still waits.
    pub fn update_in_place(&mut self) -> Result<(), AllocError>
        requires { 0 < self.old.waiting }
        ensures ok { OnOk result (self.new ≡ updated self.old) }
        ensures err { OnErr result (self.new ≡ self.old) }
    {
        let parts = &mut *self.parts;
        let place = parts.history.len() - parts.waiting;
        let goes_on = place > parts.begun;
        make_room(&mut parts.earlier, goes_on)?;
        let observed = parts.history.at(place);
        let had_ended = parts.state.lifecycle().has_ended();
        let events = parts.state.take(parts.alloc, &parts.pod, observed)?;
        follow_on(&mut parts.differs, &parts.state, had_ended, observed);
        parts.status.usage = newer_while(!had_ended, parts.status.usage, observed.sampling());
        resize_while(
            !had_ended,
            &parts.pod,
            &mut parts.status.resources,
            &mut parts.status.requests,
            observed.resizes(),
        );
        note_failure(&mut parts.status.failure, !had_ended, observed);
        let is_ended = is_ended_by_node(parts.eviction, &parts.status.failure);
        parts.state.show(is_ended, &mut parts.status.containers);
        let lifecycle = parts.state.lifecycle();
        parts.status.phase = lifecycle.phase;
        parts.status.conditions = lifecycle.conditions;
        let before = replace(&mut parts.events, events);
        move_on(&mut parts.earlier, goes_on, &parts.history, place, before);
        parts.waiting -= 1;
        Ok(())
    }

    /// Ends its present round: the events of its ticks are `earlier_events` no longer. Doesn't allocate.
    pub fn rest(&mut self)
        ensures { self.new ≡ at_rest self.old }
    {
        let parts = &mut *self.parts;
        parts.begun = parts.history.len() - parts.waiting;
        parts.earlier.clear();
    }

    /// Evicts the pod by the tick that came last. The pod has not ended, or that tick reports that the node has ended
    /// it. Makes no event, and doesn't allocate.
    pub fn evict(&mut self, order: EvictOrder)
        requires free { self.old.waiting ≡ 0 }
        requires evictable { IsEvictableAt order.at self.old }
        requires last { last_moment self.old.handed ≡ Some order.at }
        ensures { self.new ≡ with_eviction self.old order }
    {
        let parts = &mut *self.parts;
        parts.state.evict(order.at);
        parts.state.list(&mut parts.differs);
        parts.state.show(true, &mut parts.status.containers);
        let lifecycle = parts.state.lifecycle();
        parts.status.phase = lifecycle.phase;
        parts.status.conditions = lifecycle.conditions;
        parts.status.order = Some(order);
        parts.status.failure = None;
        let place = parts.history.len() - 1;
        parts.eviction = Some(EvictionRecord { place, order });
    }

    /// Replaces its number by this one. Doesn't allocate.
    pub fn renumber(&mut self, number: usize)
        ensures { self.new ≡ with_number self.old number }
    {
        let parts = &mut *self.parts;
        parts.number = number;
        parts.status.number = number;
    }

    /// Its status after the last update, or eviction: by its whole history, its phase with its conditions and its
    /// containers, its class, its effective requests, its usage, its priority, and the order to evict it.
    pub fn status(&self) -> &PodStatus
        ensures { IsStatusOf self.now result.now }
    {
        &self.parts.status
    }

    /// The events of the ticks that have come into its status since its present round began, except the last of these
    /// ticks; a tick without events may be left out.
    pub fn earlier_events(&self) -> &[MadeTick]
        ensures { AreEarlierEvents self.now result.now }
    {
        &self.parts.earlier
    }

    /// The events of the last update.
    pub fn events(&self) -> &[PodEvent]
        ensures { AreLastEvents self.now result.now }
    {
        &self.parts.events
    }
}

/// The piece of the pod with the number.
pub fn piece_at(pieces: &[PodPiece], number: usize) -> &PodPiece
    requires { number < length pieces.now }
    ensures { slice_get pieces.now number ≡ Some result.now }
{
    &pieces[number]
}
