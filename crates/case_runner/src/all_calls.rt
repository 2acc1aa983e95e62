//! The calls of the library after which something is left if an allocation fails, and a line for each: whether one
//! failed, and what was left then.

use crate::calls::{BookCall, NodeCall, on_book};
use crate::pieces::{PieceCall, on_piece};
use crate::seen::{Line, Unprepared};
use crate::ticks::Way;
use tick_round::Spawner;

/// A call of the library.
#[derive(Clone, Copy)]
enum Call {
    Piece(PieceCall),
    Book(BookCall),
}

/// The calls in the order of their lines.
const CALLS: [Call; 10] = [
    Call::Piece(PieceCall::Hand),
    Call::Piece(PieceCall::UpdateInPlace),
    Call::Piece(PieceCall::Update),
    Call::Book(BookCall::Node(NodeCall::Arrive)),
    Call::Book(BookCall::Node(NodeCall::Tick(Way::Alone))),
    Call::Book(BookCall::Node(NodeCall::Tick(Way::Played))),
    Call::Book(BookCall::Node(NodeCall::Tick(Way::InThreads))),
    Call::Book(BookCall::SeveralTicks),
    Call::Book(BookCall::UpdateAll),
    Call::Book(BookCall::Node(NodeCall::ReportText)),
];

/// What was seen of a call.
fn line_of<R: AllocGlobal + Spawner>(rt: &R, call: Call) -> Result<Line, Unprepared> {
    match call {
        Call::Piece(call) => on_piece(rt.alloc(), call),
        Call::Book(call) => on_book(rt, rt.alloc(), call),
    }
}

/// The lines of all calls.
fn text_of<R: AllocGlobal + Spawner>(rt: &R) -> Result<String, Unprepared> {
    let mut text = String::new(rt.alloc());
    for call in CALLS {
        let line = line_of(rt, call)?;
        writeln!(text, "{line}")?;
    }
    Ok(text)
}

/// Makes the calls and prints their lines, all or none. Returns whether it printed them; prints no error.
pub(crate) fn are_made<R: AllocGlobal + Print + Spawner>(rt: &R) -> bool {
    let Ok(text) = text_of(rt) else {
        return false;
    };
    print!(rt; "{text}").is_ok()
}
