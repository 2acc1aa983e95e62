//! A tick, in each way that a node takes one.

ghost use Rattle.tick_round.specs.state.Node.{MayTake};

use crate::nodes::{tells_nothing, told};
use crate::recorded::{first_tick, last_pod};
use crate::seen::{Saw, Unprepared};
use manifest::PodSpec;
use observations::TickObs;
use std::alloc::Global;
use std::sync::ledger::Ledger;
use tick_round::{NoGate, Node, Spawner, TickFault};

/// This many workers share the pods of a round.
pub(crate) const WORKERS: usize = 2;

/// How a node takes a tick.
#[derive(Clone, Copy)]
pub(crate) enum Way {
    /// `Node::tick_alone`.
    Alone,
    /// `Node::tick_play`.
    Played,
    /// `Node::tick`.
    InThreads,
}

fn play<U: Ledger, E: Ledger, O: Ledger>(
    node: &mut Node<U, E, O>,
    tick: TickObs,
) -> Result<(), TickFault>
    requires { MayTake node.old tick }
{
    match node.tick_play(tick, WORKERS, &[]) {
        Ok(_) => Ok(()),
        Err(fault) => Err(fault),
    }
}

/// The node takes a tick in this way.
fn take<U: Ledger + Send, E: Ledger + Send, O: Ledger + Send, R: Spawner>(
    rt: &R,
    node: &mut Node<U, E, O>,
    tick: TickObs,
    way: Way,
) -> Result<(), TickFault>
    requires { MayTake node.old tick }
{
    match way {
        Way::Alone => node.tick_alone(tick),
        Way::Played => play(node, tick),
        Way::InThreads => node.tick(rt, tick, WORKERS, &NoGate),
    }
}

/// Whether no pod arrives, since the node is halted.
fn takes_no_pod<U: Ledger, E: Ledger, O: Ledger>(node: &mut Node<U, E, O>, pod: PodSpec) -> bool {
    if !tells_nothing(node) {
        return false;
    }
    matches!(node.arrive(pod), Err(TickFault::Halted))
}

/// Whether no tick is taken, since the node is halted.
fn takes_no_tick<U: Ledger, E: Ledger, O: Ledger>(node: &mut Node<U, E, O>, tick: TickObs) -> bool {
    if !node.fits(&tick) {
        return false;
    }
    matches!(node.tick_alone(tick), Err(TickFault::Halted))
}

/// What was seen of a node that did not take its tick.
pub(crate) fn halted<U: Ledger, E: Ledger, O: Ledger>(
    alloc: Global,
    node: &mut Node<U, E, O>,
) -> Result<Saw, Unprepared> {
    let pod = last_pod(alloc)?;
    let tick = first_tick(alloc)?;
    if takes_no_pod(node, pod) && takes_no_tick(node, tick) && tells_nothing(node) {
        Ok(Saw::Refused("the node is halted"))
    } else {
        Ok(Saw::Wrong("the node is not halted"))
    }
}

/// The first tick of the trace, which the node takes in this way.
pub(crate) fn tick<U: Ledger + Send, E: Ledger + Send, O: Ledger + Send, R: Spawner>(
    rt: &R,
    alloc: Global,
    node: &mut Node<U, E, O>,
    way: Way,
) -> Result<Saw, Unprepared> {
    let tick = first_tick(alloc)?;
    if !node.fits(&tick) {
        return Err(Unprepared);
    }
    match take(rt, node, tick, way) {
        Ok(()) => told(alloc, node, Saw::Done),
        Err(TickFault::OutOfMemory) => halted(alloc, node),
        Err(TickFault::Halted) => Ok(Saw::Wrong("the node was halted")),
    }
}
