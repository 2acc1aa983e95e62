//! The pods of a trace, each with what the first tick shows of it.

ghost use Rattle.std.specs.Prelude.{◌≡◌, ◌<◌, ◌≤◌, length, IfOk, IsTrue, OnOk};
ghost use Rattle.observations.specs.rule.Limits.{most_pods};
ghost use Rattle.pod_state.specs.rule.Pods.{pod_tick};
ghost use Rattle.pod_piece.specs.state.Listings.{IsNextTick};
ghost use Rattle.calls_tests.specs.state.Pods.{ArePending};

use crate::scenario::Scenario;
use histories::is_before;
use kubelet_replay::Gate;
use manifest::{MaxRestartDelay, PodSpec};
use observations::{MOST_PODS, PodObs, TickObs};
use pod_piece::PodPiece;
use quantity::END_OF_TIME;
use std::alloc::Global;
use std::test::Fail;

/// Whether the observation may come next.
fn may_take(piece: &PodPiece, observed: &PodObs) -> bool
    ensures { IsTrue result → IsNextTick piece.now.pod piece.now.handed (pod_tick observed.now) }
{
    if piece.pending() {
        return false;
    }
    observed.at() < END_OF_TIME
        && is_before(piece.last_at(), observed.at())
        && piece.accepts(observed)
}

/// The pod takes the observation, if it may come next.
fn hand(piece: &mut PodPiece, observed: PodObs) -> Result<(), Fail>
    ensures number { piece.new.number ≡ piece.old.number }
    ensures pending { OnOk result (0 < piece.new.waiting) }
{
    if !may_take(piece, &observed) {
        return Err(Fail::new("the observation may not come next"));
    }
    piece.hand(observed)?;
    Ok(())
}

/// The pod, to which the observation was handed.
fn handed(piece: PodPiece, observed: PodObs) -> Result<PodPiece, Fail>
    ensures number { IfOk result (λ pending. pending.number ≡ piece.number) }
    ensures pending { IfOk result (λ pending. 0 < pending.waiting) }
{
    let mut piece = piece;
    match hand(&mut piece, observed) {
        Ok(()) => Ok(piece),
        Err(fault) => {
            drop(piece);
            Err(fault)
        }
    }
}

/// A pod that is made, to which the observation was handed.
fn pending(alloc: Global, number: usize, pod: PodSpec, observed: PodObs) -> Result<PodPiece, Fail>
    ensures number { IfOk result (λ piece. piece.number ≡ number) }
    ensures pending { IfOk result (λ piece. 0 < piece.waiting) }
{
    match PodPiece::new(alloc, number, pod, MaxRestartDelay::unset()) {
        Ok(piece) => handed(piece, observed),
        Err(fault) => {
            drop(observed);
            Err(fault.into())
        }
    }
}

/// A pod behind those before it, with what the tick shows of it.
fn add(
    alloc: Global,
    pieces: &mut Vec<PodPiece>,
    pod: PodSpec,
    shown: Option<PodObs>,
) -> Result<(), Fail>
    requires { ArePending pieces.old.items }
    ensures { OnOk result (ArePending pieces.new.items) }
{
    let Some(observed) = shown else {
        return Err(Fail::new("the tick does not show a pod"));
    };
    let piece = pending(alloc, pieces.len(), pod, observed)?;
    pieces.push(piece)?;
    Ok(())
}

/// These pods, each with what the tick shows of it.
fn pieces_of(alloc: Global, pods: Vec<PodSpec>, tick: TickObs) -> Result<Vec<PodPiece>, Fail>
    ensures { IfOk result (λ pieces. ArePending pieces.items) }
{
    let mut pieces = Vec::new(alloc);
    let mut shown = tick.pods.into_vec().into_iter();
    for pod in pods {
        add(alloc, &mut pieces, pod, shown.next().flatten())?;
    }
    Ok(pieces)
}

/// The first of these ticks.
pub(crate) fn first_of(ticks: Vec<TickObs>) -> Result<TickObs, Fail> {
    match ticks.into_iter().next() {
        Some(tick) => Ok(tick),
        None => Err(Fail::new("the trace has no tick")),
    }
}

/// These pods, at most 256, each with what the tick shows of it.
fn few_pieces_of(alloc: Global, pods: Vec<PodSpec>, tick: TickObs) -> Result<Vec<PodPiece>, Fail>
    ensures pending { IfOk result (λ pieces. ArePending pieces.items) }
    ensures few { IfOk result (λ pieces. length pieces.items ≤ most_pods) }
{
    let pieces = pieces_of(alloc, pods, tick)?;
    if pieces.len() > MOST_PODS {
        drop(pieces);
        return Err(Fail::new("the trace has too many pods"));
    }
    Ok(pieces)
}

/// The pods of the scenario's trace, to which the first tick was handed.
pub(crate) fn first_pieces<G: Gate>(
    alloc: Global,
    scenario: &Scenario<'_, G>,
) -> Result<Vec<PodPiece>, Fail>
    ensures pending { IfOk result (λ pieces. ArePending pieces.items) }
    ensures few { IfOk result (λ pieces. length pieces.items ≤ most_pods) }
{
    let trace = scenario.trace(alloc)?;
    match first_of(trace.ticks.into_vec()) {
        Ok(tick) => few_pieces_of(alloc, trace.pods.into_vec(), tick),
        Err(fault) => {
            drop(trace.pods);
            Err(fault)
        }
    }
}
