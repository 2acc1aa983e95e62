//! All ticks of the trace at once, which make one round.

ghost use Rattle.std.specs.Prelude.{◌≡◌, IfOk};
ghost use Rattle.totals.specs.state.Totals.{nothing};
ghost use Rattle.tick_round.specs.state.Node.{MayTakeAll};

use crate::nodes::told;
use crate::recorded::read;
use crate::seen::{Line, Saw, Unprepared};
use crate::ticks::{WORKERS, halted};
use event_book::WholeBook;
use observations::TickObs;
use pod_piece::PodPiece;
use std::alloc::{AllocError, Global};
use std::sync::ledger::Ledger;
use tick_round::{Gate, Node, Spawner, TickFault};

/// Says that an update may wait in it, so that all workers run; none does.
struct AllRun;

impl Gate for AllRun {
    fn waits(&self) -> bool {
        true
    }

    fn update(&self, piece: &mut PodPiece) -> Result<(), AllocError> {
        piece.update_in_place()
    }
}

/// The node takes these ticks.
fn take_all<U: Ledger + Send, E: Ledger + Send, O: Ledger + Send, R: Spawner>(
    rt: &R,
    alloc: Global,
    node: &mut Node<U, E, O>,
    ticks: Vec<TickObs>,
) -> Result<Saw, Unprepared>
    requires { MayTakeAll node.old ticks.items }
{
    match node.ticks(rt, ticks, WORKERS, &AllRun) {
        Ok(()) => told(alloc, node, Saw::Done),
        Err(TickFault::OutOfMemory) => halted(alloc, node),
        Err(TickFault::Halted) => Ok(Saw::Wrong("the node was halted")),
    }
}

/// A node over this book, on which all pods of the trace have arrived, and the ticks of the trace.
fn node_and_ticks<U: Ledger, E: Ledger, O: Ledger>(
    alloc: Global,
    book: WholeBook<U, E, O>,
) -> Result<(Node<U, E, O>, Vec<TickObs>), Unprepared>
    requires { book ≡ nothing }
    ensures { IfOk result (λ r. MayTakeAll r.0 r.1.items) }
{
    let trace = read(alloc)?;
    let node = Node::new(alloc, trace.node, trace.pods.into_vec(), book)?;
    Ok((node, trace.ticks.into_vec()))
}

/// `Node::ticks`, of all ticks of the trace.
pub(crate) fn several_ticks<U: Ledger + Send, E: Ledger + Send, O: Ledger + Send, R: Spawner>(
    rt: &R,
    alloc: Global,
    book: WholeBook<U, E, O>,
) -> Result<Line, Unprepared>
    requires { book ≡ nothing }
{
    let (mut node, ticks) = node_and_ticks(alloc, book)?;
    let saw = take_all(rt, alloc, &mut node, ticks);
    drop(node);
    Ok(Line {
        name: "ticks",
        saw: saw?,
    })
}
