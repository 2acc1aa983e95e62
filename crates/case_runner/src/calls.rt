//! The calls that have a book, each over one of its own.

ghost use Rattle.std.specs.Prelude.{◌≡◌};
ghost use Rattle.tick_round.specs.state.Node.{HasRoom};

use crate::arrivals::arrive;
use crate::nodes::node_of;
use crate::reports::report;
use crate::rounds::round;
use crate::seen::{Line, Saw, Unprepared};
use crate::several::several_ticks;
use crate::ticks::{Way, tick};
use event_book::{Blanks, EventBook, WholeBook};
use std::alloc::Global;
use std::marker::Brand;
use std::sync::ledger::Ledger;
use tick_round::{Node, Spawner};

/// A call of a node, or of its summary.
#[derive(Clone, Copy)]
pub(crate) enum NodeCall {
    Arrive,
    Tick(Way),
    ReportText,
}

/// A call that has a book.
#[derive(Clone, Copy)]
pub(crate) enum BookCall {
    Node(NodeCall),
    SeveralTicks,
    UpdateAll,
}

impl NodeCall {
    fn name(self) -> &'static str {
        match self {
            NodeCall::Arrive => "arrive",
            NodeCall::Tick(Way::Alone) => "tick_alone",
            NodeCall::Tick(Way::Played) => "tick_play",
            NodeCall::Tick(Way::InThreads) => "tick",
            NodeCall::ReportText => "report_text",
        }
    }

    /// Whether the node has all pods of the trace before the call.
    fn has_all(self) -> bool {
        !matches!(self, NodeCall::Arrive)
    }
}

/// The call, on a node with room for a pod.
fn on<U: Ledger + Send, E: Ledger + Send, O: Ledger + Send, R: Spawner>(
    rt: &R,
    alloc: Global,
    node: &mut Node<U, E, O>,
    call: NodeCall,
) -> Result<Saw, Unprepared>
    requires { HasRoom node.old }
{
    match call {
        NodeCall::Arrive => arrive(alloc, node),
        NodeCall::Tick(way) => tick(rt, alloc, node, way),
        NodeCall::ReportText => report(alloc, node),
    }
}

/// The call, on this node with room for a pod.
fn on_node<U: Ledger + Send, E: Ledger + Send, O: Ledger + Send, R: Spawner>(
    rt: &R,
    alloc: Global,
    node: Node<U, E, O>,
    call: NodeCall,
) -> Result<Line, Unprepared>
    requires { HasRoom node }
{
    let mut node = node;
    let saw = on(rt, alloc, &mut node, call);
    drop(node);
    Ok(Line {
        name: call.name(),
        saw: saw?,
    })
}

/// The call, over a book with these ledgers.
fn over_book<U: Ledger + Send, E: Ledger + Send, O: Ledger + Send, R: Spawner>(
    rt: &R,
    alloc: Global,
    blanks: Blanks,
    call: BookCall,
) -> Result<Line, Unprepared>
    requires names { (blanks.updates.name ≡ U.name) × (blanks.events.name ≡ E.name) × (blanks.orders.name ≡ O.name) }
    requires parts { (blanks.updates.parts ≡ U.parts) × (blanks.events.parts ≡ E.parts)
        × (blanks.orders.parts ≡ O.parts) }
{
    match call {
        BookCall::Node(call) => {
            let node = node_of::<U, E, O>(alloc, blanks, call.has_all())?;
            on_node(rt, alloc, node, call)
        }
        BookCall::SeveralTicks => several_ticks(rt, alloc, WholeBook::<U, E, O>::new(blanks)),
        BookCall::UpdateAll => {
            let (book, share) = EventBook::<U, E, O>::new(blanks);
            round(rt, alloc, book, share)
        }
    }
}

/// The call, over a book of its own.
pub(crate) fn on_book<R: Spawner>(
    rt: &R,
    alloc: Global,
    call: BookCall,
) -> Result<Line, Unprepared> {
    over_book::<Brand, Brand, Brand, R>(rt, alloc, Blanks::new(), call)
}
