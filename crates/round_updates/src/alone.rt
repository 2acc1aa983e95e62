//! The updates of all pods in a round, on one thread.

ghost use Rattle.std.specs.Prelude.{◌≡◌, ◌-◌, ◌<◌, length, map, slice_get, Some};
ghost use Rattle.std.specs.Prelude.{IfOk, OnOk, OnErr};
ghost use Rattle.pod_piece.specs.rule.Piece.{Piece};
ghost use Rattle.pod_piece.specs.state.Piece.{all_updated};
ghost use Rattle.totals.specs.state.Limits.{most_round_events, greatest_total};
ghost use Rattle.worker_results.specs.state.Gated.{WereGated, AreGated, WasRefused};
ghost use Rattle.round_updates.specs.state.Update.{IsGatedAt};
ghost use Rattle.round_updates.specs.state.Update.{AreUpTo, MayUpdate, IsAdded, UpdatesAt};
ghost use Rattle.totals.specs.state.Rounds.{AreAdded};

use event_book::WholeBook;
use pod_piece::{Gate, PodPiece};
use std::alloc::AllocError;
use std::sync::ledger::Ledger;
use totals::Totals;
use worker_results::update_waiting;

/// A pod takes the ticks that wait for it into its status, in their order, and is entered in the book.
fn update_one<U: Ledger, E: Ledger, O: Ledger, G: Gate>(
    piece: &mut PodPiece,
    book: &mut WholeBook<U, E, O>,
    gate: &G,
) -> Result<(), AllocError>
    requires pending { 0 < piece.old.waiting }
    requires room { AreUpTo (greatest_total - most_round_events) book.old }
    ensures piece { OnOk result (piece.new ≡ all_updated piece.old) }
    ensures book { OnOk result (IsAdded piece.new book.old book.new) }
    ensures gated { OnOk result (WereGated (G.left gate.now) piece.old.waiting piece.new) }
    ensures refused { OnErr result (WasRefused (G.left gate.now)) }
{
    update_waiting(gate, piece)?;
    book.add(Totals::of_round(piece));
    Ok(())
}

/// The pod with the number takes the ticks that wait for it into its status, and is entered in the book.
fn update_at<U: Ledger, E: Ledger, O: Ledger, G: Gate>(
    pieces: &mut Vec<PodPiece>,
    number: usize,
    book: &mut WholeBook<U, E, O>,
    gate: &G,
) -> Result<(), AllocError>
    requires within { number < length pieces.old.items }
    requires pending { (piece : Piece) → slice_get pieces.old.items number ≡ Some piece → 0 < piece.waiting }
    requires room { AreUpTo (greatest_total - most_round_events) book.old }
    ensures updates { OnOk result (UpdatesAt pieces.old.items number book.old pieces.new.items book.new) }
    ensures gated { OnOk result (IsGatedAt (G.left gate.now) pieces.old.items number) }
    ensures refused { OnErr result (WasRefused (G.left gate.now)) }
{
    update_one(&mut pieces[number], book, gate)
}

/// All pods take the ticks that wait for them into their statuses, one pod after the other, and are entered in the
/// book; the gate makes each update. An `Err` says that memory was refused to one.
pub fn update_alone<U: Ledger, E: Ledger, O: Ledger, G: Gate>(
    pieces: Vec<PodPiece>,
    book: WholeBook<U, E, O>,
    gate: &G,
) -> Result<(Vec<PodPiece>, WholeBook<U, E, O>), AllocError>
    requires { MayUpdate pieces.items book }
    ensures pieces { IfOk result (λ r. r.0.items ≡ map all_updated pieces.items) }
    ensures book { IfOk result (λ r. AreAdded r.0.items book r.1) }
    ensures gated { OnOk result (AreGated (G.left gate.now) pieces.items) }
    ensures refused { OnErr result (WasRefused (G.left gate.now)) }
{
    let mut pieces = pieces;
    let mut book = book;
    for number in 0..pieces.len() {
        update_at(&mut pieces, number, &mut book, gate)?;
    }
    Ok((pieces, book))
}
