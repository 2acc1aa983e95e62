//! A pod that arrives.

ghost use Rattle.tick_round.specs.state.Node.{HasRoom};

use crate::nodes::{report_of, told};
use crate::recorded::last_pod;
use crate::seen::{Saw, Unprepared};
use manifest::PodSpec;
use std::alloc::Global;
use std::sync::ledger::Ledger;
use tick_round::{Node, TickFault};

/// Whether the node still tells this.
fn tells<U: Ledger, E: Ledger, O: Ledger>(
    alloc: Global,
    node: &Node<U, E, O>,
    before: &str,
) -> Result<bool, Unprepared> {
    let report = report_of(alloc, node)?;
    Ok(report.as_str() == before)
}

fn arrived_again<U: Ledger, E: Ledger, O: Ledger>(
    alloc: Global,
    node: &mut Node<U, E, O>,
    before: &str,
) -> Result<Saw, Unprepared>
    requires { HasRoom node.old }
{
    if !tells(alloc, node, before)? {
        return Ok(Saw::Wrong("the node is another than it was"));
    }
    let pod = last_pod(alloc)?;
    if node.arrive(pod).is_err() {
        return Ok(Saw::Wrong("the second call is refused"));
    }
    let saw = Saw::Refused("the node is as it was, and the pod arrives");
    told(alloc, node, saw)
}

fn arrive_twice<U: Ledger, E: Ledger, O: Ledger>(
    alloc: Global,
    node: &mut Node<U, E, O>,
    pod: PodSpec,
    before: &str,
) -> Result<Saw, Unprepared>
    requires { HasRoom node.old }
{
    match node.arrive(pod) {
        Ok(()) => told(alloc, node, Saw::Done),
        Err(TickFault::OutOfMemory) => arrived_again(alloc, node, before),
        Err(TickFault::Halted) => Ok(Saw::Wrong("the node is halted")),
    }
}

/// `Node::arrive`.
pub(crate) fn arrive<U: Ledger, E: Ledger, O: Ledger>(
    alloc: Global,
    node: &mut Node<U, E, O>,
) -> Result<Saw, Unprepared>
    requires { HasRoom node.old }
{
    let before = report_of(alloc, node)?;
    let pod = last_pod(alloc)?;
    arrive_twice(alloc, node, pod, before.as_str())
}
