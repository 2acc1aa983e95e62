//! How a worker updates and enters a piece, and how what two workers keep comes together.

ghost use Rattle.std.specs.Prelude.{◌≡◌, ◌<◌, ◌≤◌, ◌+◌, [], ℕ, true, false, None, Some, vec_capacity};
ghost use Rattle.std.specs.Prelude.{IfOk, IfErr, IfSome, IsTrue, OnOk, OnErr, is_ok, if◌then◌else◌};
ghost use Rattle.pod_piece.specs.state.Piece.{all_updated};
ghost use Rattle.totals.specs.state.Totals.{nothing, plus};
ghost use Rattle.event_book.specs.state.Shares.{share_with};
ghost use Rattle.piece_deques.specs.state.Rule.{IsPieceDue};
ghost use Rattle.worker_results.specs.state.Done.{IsLeftFrom};
ghost use Rattle.worker_results.specs.state.Gated.{WereGated, IsFinished, IsRefused};
ghost use Rattle.worker_results.specs.state.WorkerResults.{kept, KeepsOneMore, HasRoomForOne, HasRoomFor};

use crate::round_gate::RoundGate;
use crate::worker_result::WorkerResult;
use event_book::{EventBook, Full, Shares};
use piece_deques::Deal;
use pod_piece::{Gate, PodPiece};
use std::alloc::AllocError;
use std::marker::PhantomData;
use std::sync::ledger::Ledger;
use std::sync::{Mutex, Wait};
use totals::Totals;

/// Takes all waiting ticks of a piece into its status, in their order, each by an update of the gate. After an `Err`
/// the piece still waits: the ticks before the failed one are taken.
pub fn update_waiting<G: Gate>(gate: &G, piece: &mut PodPiece) -> Result<(), AllocError>
    requires { 0 < piece.old.waiting }
    ensures ok { OnOk result (piece.new ≡ all_updated piece.old) }
    ensures err { OnErr result (IsLeftFrom piece.old piece.new) }
    ensures gated { WereGated (G.left gate.now) piece.old.waiting piece.new }
    ensures refused { OnErr result (IsTrue (G.left gate.now piece.new false)) }
{
    'waiting: while piece.pending() {
        gate.update(piece)?;
    }
    Ok(())
}

/// Adds what a round adds to the book, while no other worker does.
fn enter<R: Wait, U: Ledger, E: Ledger, O: Ledger>(
    rt: &R,
    book: &Mutex<EventBook<U, E, O>>,
    more: Totals,
    share: &mut Shares<U, E, O>,
) -> Result<(), Full>
    requires { 0 < share.old.parts }
    ensures share { OnOk result (share.new ≡ share_with share.old.parts (plus share.old.totals more)) }
    ensures kept { OnErr result (share.new ≡ share.old) }
{
    book.lock(rt).add(more, share)
}

impl<D: Deal, U: Ledger, E: Ledger, O: Ledger> WorkerResult<D, U, E, O> {
    /// What a worker keeps that has done nothing yet, in vectors with room for all that it may keep.
    pub fn new(
        done: Vec<PodPiece>,
        uncounted: Vec<PodPiece>,
        share: Shares<U, E, O>,
    ) -> WorkerResult<D, U, E, O>
        requires empty { done.items ≡ [] }
        requires empty_uncounted { uncounted.items ≡ [] }
        requires share { share ≡ share_with 1 nothing }
        ensures done { result.done ≡ done }
        ensures uncounted { result.uncounted ≡ uncounted }
        ensures none { result.refused ≡ None }
        ensures share { result.share ≡ share }
    {
        WorkerResult {
            done,
            uncounted,
            refused: None,
            share,
            of: PhantomData,
        }
    }

    /// Keeps a piece, and returns whether it was updated: enters it if it was, else keeps it as the failed one. Doesn't
    /// allocate.
    fn keep<R: Wait>(
        &mut self,
        rt: &R,
        book: &Mutex<EventBook<U, E, O>>,
        piece: PodPiece,
        updated: Result<(), AllocError>,
    ) -> bool
        requires ok { OnOk updated (IsFinished D.left D.all piece) }
        requires err { OnErr updated (IsRefused D.left D.all piece) }
        requires none { self.old.refused ≡ None }
        requires room { HasRoomForOne self.old }
        ensures keeps { KeepsOneMore piece self.old self.new }
        ensures updated { result ≡ is_ok updated }
        ensures refused { self.new.refused ≡ (if is_ok updated then None else Some piece) }
    {
        match updated {
            Ok(()) => {
                let more = Totals::of_round(&piece);
                let entered = enter(rt, book, more, &mut self.share);
                match entered {
                    Ok(()) => self.done.push_reserved(piece),
                    Err(Full) => self.uncounted.push_reserved(piece),
                }
                true
            }
            Err(_) => {
                self.refused = Some(piece);
                false
            }
        }
    }

    /// Takes all waiting ticks of a piece into its status, and enters it with what they add. Returns false if an update
    /// failed: then it is kept as the update left it.
    pub fn finish<R: Wait, G: Gate>(
        &mut self,
        rt: &R,
        book: &Mutex<EventBook<U, E, O>>,
        gate: &RoundGate<'_, D, G>,
        piece: PodPiece,
    ) -> bool
        requires due { IsPieceDue D.all piece }
        requires none { self.old.refused ≡ None }
        requires room { HasRoomForOne self.old }
        ensures keeps { KeepsOneMore piece self.old self.new }
        ensures more { result ≡ true → self.new.refused ≡ None }
        ensures last { self.new.refused ≡ None → result ≡ true }
        ensures refused { IfSome self.new.refused (IsLeftFrom piece) }
        ensures gated { result ≡ true → WereGated D.left piece.waiting (all_updated piece) }
    {
        let mut piece = piece;
        let updated = update_waiting(gate.gate, &mut piece);
        self.keep(rt, book, piece, updated)
    }

    /// The result if no update failed, else the piece whose update did.
    pub fn complete(self) -> Result<WorkerResult<D, U, E, O>, PodPiece>
        ensures ok { IfOk result (λ worker_result. worker_result ≡ self) }
        ensures none { IfOk result (λ worker_result. worker_result.refused ≡ None) }
        ensures err { IfErr result (IsRefused D.left D.all) }
        ensures refused { IfErr result (λ piece. self.refused ≡ Some piece) }
    {
        if self.refused.is_none() {
            return Ok(self);
        }
        let WorkerResult {
            done: _,
            uncounted: _,
            refused,
            share: _,
            of: _,
        } = self;
        match refused {
            Some(piece) => Err(piece),
            None => unreachable!(),
        }
    }

    /// Takes in what another worker keeps.
    pub fn merge(&mut self, other: WorkerResult<D, U, E, O>)
        requires none { self.old.refused ≡ None }
        requires other { other.refused ≡ None }
        requires room { HasRoomFor other self.old }
        ensures kept { (weight : ℕ → ℕ) → kept weight self.new ≡ kept weight self.old + kept weight other }
        ensures room { vec_capacity self.old.done ≤ vec_capacity self.new.done }
        ensures room_uncounted { vec_capacity self.old.uncounted ≤ vec_capacity self.new.uncounted }
        ensures none { self.new.refused ≡ None }
        ensures parts { self.new.share.parts ≡ self.old.share.parts + other.share.parts }
    {
        let WorkerResult {
            done,
            uncounted,
            refused: _,
            share,
            of: _,
        } = other;
        let mut done = done;
        let mut uncounted = uncounted;
        self.share.join(share);
        match self.done.append(&mut done) {
            Ok(()) => {}
            Err(_) => unreachable!(),
        }
        match self.uncounted.append(&mut uncounted) {
            Ok(()) => {}
            Err(_) => unreachable!(),
        }
    }
}
