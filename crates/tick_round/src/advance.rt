//! A node after more ticks: a round of it is begun, its pods are updated, on one thread, by steps or by workers, and it
//! is ended.
//!
//! Where a function that owns the node drops it, it says so by `drop`: what goes out of scope by itself costs
//! its proof several times as much.

ghost use Rattle.std.specs.Prelude.{◌<◌, ◌≤◌, ◌∷◌, [], length, map, IfOk, OnOk};
ghost use Rattle.observations.specs.rule.Observations.{all_shown};
ghost use Rattle.worker_count.specs.rule.Limit.{most_workers};
ghost use Rattle.node_rounds.specs.state.Node.{Fits, FitAll, IsNextBy};
ghost use Rattle.tick_round.specs.state.Node.{AreNextGated, HasTakenSome};
ghost use Rattle.round_updates.specs.state.Played.{AreFinished};

use crate::workers::update_by_workers;
use node_rounds::Running;
use observations::TickObs;
use pod_piece::{Gate, NoGate};
use pod_pool::Spawner;
use round_steps::Step;
use round_updates::{update_alone, update_by_steps};
use std::alloc::AllocError;
use std::sync::ledger::Ledger;
use std::vec::IntoIter;

/// The node after one more tick, on one thread. Drops the node if an allocation fails.
pub(crate) fn advance_alone<U: Ledger, E: Ledger, O: Ledger>(
    node: Running<U, E, O>,
    tick: TickObs,
) -> Result<Running<U, E, O>, AllocError>
    requires { Fits node tick }
    ensures { IfOk result (IsNextBy (tick ∷ []) node) }
{
    let (pieces, book, round) = node.begin_one(tick)?;
    match update_alone(pieces, book, &NoGate) {
        Ok((pieces, book)) => round.end(pieces, book),
        Err(fault) => {
            drop(round);
            Err(fault)
        }
    }
}

/// The node after one more tick, with the round simulated for this many workers by these steps, and for each worker the
/// places, among the pods that are present, of the pods that it finished. Drops the node if an allocation fails.
pub(crate) fn advance_played<U: Ledger, E: Ledger, O: Ledger>(
    node: Running<U, E, O>,
    tick: TickObs,
    workers: usize,
    steps: &[Step],
) -> Result<(Running<U, E, O>, Vec<Vec<usize>>), AllocError>
    requires fits { Fits node tick }
    requires some { 0 < workers }
    requires most { workers ≤ most_workers }
    ensures next { IfOk result (λ r. IsNextBy (tick ∷ []) node r.0) }
    ensures finished { IfOk result (λ r.
        AreFinished (length (all_shown tick)) workers steps.now (map (λ list. list.items) r.1.items)) }
{
    let alloc = node.alloc();
    let (pieces, book, round) = node.begin_one(tick)?;
    match update_by_steps(alloc, pieces, book, workers, steps) {
        Ok(played) => {
            let next = round.end(played.pieces, played.book)?;
            Ok((next, played.finished))
        }
        Err(fault) => {
            drop(round);
            Err(fault)
        }
    }
}

/// The node after one more tick, whose pods this many workers update by the gate. Drops the node if an allocation
/// fails.
pub(crate) fn advance<U: Ledger + Send, E: Ledger + Send, O: Ledger + Send, R: Spawner, G: Gate>(
    node: Running<U, E, O>,
    rt: &R,
    tick: TickObs,
    workers: usize,
    gate: &G,
) -> Result<Running<U, E, O>, AllocError>
    requires fits { Fits node tick }
    requires some { 0 < workers }
    requires most { workers ≤ most_workers }
    ensures next { IfOk result (IsNextBy (tick ∷ []) node) }
    ensures gated { OnOk result (AreNextGated (G.left gate.now) node (tick ∷ [])) }
{
    let alloc = node.alloc();
    let (pieces, book, round) = node.begin_one(tick)?;
    match update_by_workers(rt, alloc, pieces, book, workers, round.waiting(), gate) {
        Ok((pieces, book)) => round.end(pieces, book),
        Err(fault) => {
            drop(round);
            Err(fault)
        }
    }
}

/// The node after this tick and as many more as one round takes, whose pods this many workers update. Drops the node if
/// an allocation fails.
pub(crate) fn advance_some<
    U: Ledger + Send,
    E: Ledger + Send,
    O: Ledger + Send,
    R: Spawner,
    G: Gate,
>(
    node: Running<U, E, O>,
    rt: &R,
    tick: TickObs,
    more: &mut IntoIter<TickObs>,
    workers: usize,
    gate: &G,
) -> Result<Running<U, E, O>, AllocError>
    requires fits { FitAll node (tick ∷ more.old.rest.items) }
    requires some { 0 < workers }
    requires most { workers ≤ most_workers }
    ensures some { IfOk result (λ r.
        HasTakenSome (G.left gate.now) (tick ∷ more.old.rest.items) node r more.new.rest.items) }
    ensures fewer { OnOk result (length more.new.rest.items ≤ length more.old.rest.items) }
{
    let alloc = node.alloc();
    let (pieces, book, round) = node.begin_some(tick, more)?;
    match update_by_workers(rt, alloc, pieces, book, workers, round.waiting(), gate) {
        Ok((pieces, book)) => round.end(pieces, book),
        Err(fault) => {
            drop(round);
            Err(fault)
        }
    }
}

/// The node after these ticks, whose pods this many workers update, in rounds of one tick or of several. Drops the node
/// if an allocation fails.
pub(crate) fn advance_all<
    U: Ledger + Send,
    E: Ledger + Send,
    O: Ledger + Send,
    R: Spawner,
    G: Gate,
>(
    node: Running<U, E, O>,
    rt: &R,
    ticks: Vec<TickObs>,
    workers: usize,
    gate: &G,
) -> Result<Running<U, E, O>, AllocError>
    requires fits { FitAll node ticks.items }
    requires some { 0 < workers }
    requires most { workers ≤ most_workers }
    ensures next { IfOk result (IsNextBy ticks.items node) }
    ensures gated { OnOk result (AreNextGated (G.left gate.now) node ticks.items) }
{
    let mut running = node;
    let mut rest = ticks.into_iter();
    for _ in 0..rest.len() {
        let Some(tick) = rest.next() else {
            return Ok(running);
        };
        running = advance_some(running, rt, tick, &mut rest, workers, gate)?;
    }
    Ok(running)
}
