//! A node with its pods: how it is made for a call, and what it tells.

ghost use Rattle.std.specs.Prelude.{◌≡◌, ◌<◌, length, None, IfOk, IsTrue};
ghost use Rattle.observations.specs.rule.Limits.{most_pods};
ghost use Rattle.tick_round.specs.state.Node.{HasRoom};

use crate::recorded::{config, is_report, pods, ticks};
use crate::seen::{Saw, Unprepared};
use event_book::{Blanks, WholeBook};
use manifest::PodSpec;
use node_report::report_text;
use observations::{MOST_PODS, TickObs};
use std::alloc::Global;
use std::sync::ledger::Ledger;
use tick_round::{Node, TickFault};

/// The pods of the trace, or all but the last, where a node has room for one more.
fn few_pods(alloc: Global, with_last: bool) -> Result<Vec<PodSpec>, Unprepared>
    ensures { IfOk result (λ pods. length pods.items < most_pods) }
{
    let mut pods = pods(alloc)?;
    if !with_last {
        let _last = pods.pop();
    }
    if pods.len() >= MOST_PODS {
        return Err(Unprepared);
    }
    Ok(pods)
}

/// A node over these ledgers with the pods of the trace, or all but the last, and room for one more.
pub(crate) fn node_of<U: Ledger, E: Ledger, O: Ledger>(
    alloc: Global,
    blanks: Blanks,
    with_last: bool,
) -> Result<Node<U, E, O>, Unprepared>
    requires names { (blanks.updates.name ≡ U.name) × (blanks.events.name ≡ E.name) × (blanks.orders.name ≡ O.name) }
    requires parts { (blanks.updates.parts ≡ U.parts) × (blanks.events.parts ≡ E.parts)
        × (blanks.orders.parts ≡ O.parts) }
    ensures { IfOk result HasRoom }
{
    let pods = few_pods(alloc, with_last)?;
    let config = config(alloc)?;
    let book = WholeBook::<U, E, O>::new(blanks);
    Ok(Node::new(alloc, config, pods, book)?)
}

/// What the node tells.
pub(crate) fn report_of<U: Ledger, E: Ledger, O: Ledger>(
    alloc: Global,
    node: &Node<U, E, O>,
) -> Result<String, Unprepared> {
    let summary = node.summary()?;
    Ok(report_text(alloc, &summary)?)
}

/// The node takes the tick, if it may come next.
fn take_next<U: Ledger, E: Ledger, O: Ledger>(
    node: &mut Node<U, E, O>,
    tick: TickObs,
) -> Result<(), Unprepared> {
    if node.fits(&tick) {
        node.tick_alone(tick)?;
    }
    Ok(())
}

/// The node takes the ticks of the trace that it has not taken.
pub(crate) fn take_rest<U: Ledger, E: Ledger, O: Ledger>(
    alloc: Global,
    node: &mut Node<U, E, O>,
) -> Result<(), Unprepared> {
    for tick in ticks(alloc)? {
        take_next(node, tick)?;
    }
    Ok(())
}

/// What was seen, if the node tells the report of the trace once it has taken all ticks.
pub(crate) fn told<U: Ledger, E: Ledger, O: Ledger>(
    alloc: Global,
    node: &mut Node<U, E, O>,
    saw: Saw,
) -> Result<Saw, Unprepared> {
    take_rest(alloc, node)?;
    let report = report_of(alloc, node)?;
    if is_report(report.as_str()) {
        Ok(saw)
    } else {
        Ok(Saw::Wrong("the report is another"))
    }
}

/// Whether it tells nothing, since it is halted.
pub(crate) fn tells_nothing<U: Ledger, E: Ledger, O: Ledger>(node: &Node<U, E, O>) -> bool
    ensures { IsTrue result → node.now ≡ None }
{
    match node.summary() {
        Err(TickFault::Halted) => true,
        _ => false,
    }
}
