//! What a worker does in its context.

ghost use Rattle.std.specs.Prelude.{◌≡◌, ◌≢◌, ◌<◌, ◌≤◌, ◌+◌, ℕ, [], None, true, false, map, vec_len, vec_capacity};
ghost use mathlib.Core.Option.{some};
ghost use lib.ListN.{get_elem?};
ghost use Rattle.crossbeam_deque.specs.Handles.{worker_view};
ghost use Rattle.totals.specs.state.Totals.{nothing};
ghost use Rattle.event_book.specs.state.Shares.{share_with};
ghost use Rattle.piece_deques.specs.state.Rule.{FoundEmpty};
ghost use Rattle.piece_deques.specs.state.Ends.{IsOwner};
ghost use Rattle.pool_workers.specs.state.Permits.{owner_deque, permit_deque, pushed_to, taken_by, FoundAllEmpty};
ghost use Rattle.pool_workers.specs.state.Contexts.{tag_of, context_tag, IsSameWorker, HasEmptied};

use crate::context::WorkerContext;
use event_book::{EventBook, Shares};
use piece_deques::{Deal, Owner, pop};
use pod_piece::{Gate, PodPiece};
use std::sync::ledger::Ledger;
use std::sync::{Mutex, Wait};
use worker_results::{RoundGate, StealHandle, WorkerResult};

impl<D: Deal, U: Ledger, E: Ledger, O: Ledger> WorkerContext<D, U, E, O> {
    /// The context of a worker that has done nothing yet, whose deque is at this place. The vectors have room for all
    /// that it may keep.
    pub fn new(
        owner: Owner<D>,
        own: usize,
        handles: Vec<StealHandle<D>>,
        done: Vec<PodPiece>,
        uncounted: Vec<PodPiece>,
        share: Shares<U, E, O>,
    ) -> WorkerContext<D, U, E, O>
        requires owner { IsOwner owner }
        requires none { (worker_view owner).taken ≡ [] }
        requires fresh { (weight : ℕ → ℕ) → taken_by weight handles.items ≡ 0 }
        requires empty { done.items ≡ [] }
        requires empty_uncounted { uncounted.items ≡ [] }
        requires own { get_elem? (map permit_deque handles.items) own ≡ some (owner_deque owner) }
        requires room { pushed_to handles.items ≤ vec_capacity done }
        requires room_uncounted { vec_capacity uncounted ≡ vec_capacity done }
        requires share { share ≡ share_with 1 nothing }
        ensures { context_tag result ≡ tag_of owner handles.items 1 }
    {
        WorkerContext {
            owner,
            own,
            handles,
            worker_result: WorkerResult::new(done, uncounted, share),
        }
    }

    /// Finishes the pieces of its own deque, until it finds none in it. Returns false if an update fails.
    fn empty_own<R: Wait, G: Gate>(
        &mut self,
        rt: &R,
        book: &Mutex<EventBook<U, E, O>>,
        gate: &RoundGate<'_, D, G>,
    ) -> bool
        requires { self.old.worker_result.refused ≡ None }
        ensures same { IsSameWorker self.old self.new }
        ensures more { result ≡ true → self.new.worker_result.refused ≡ None }
        ensures refused { result ≡ false → self.new.worker_result.refused ≢ None }
        ensures found { result ≡ true → FoundEmpty D.all (worker_view self.new.owner) }
    {
        'own: for _ in rt.forever() {
            let Some(piece) = pop(&mut self.owner) else {
                return true;
            };
            if !self.worker_result.finish(rt, book, gate, piece) {
                return false;
            }
        }
        unreachable!()
    }

    /// Finishes pieces of another deque, until it finds none in it. Returns false if an update fails.
    fn empty_other<R: Wait, G: Gate>(
        &mut self,
        rt: &R,
        book: &Mutex<EventBook<U, E, O>>,
        gate: &RoundGate<'_, D, G>,
        from: usize,
    ) -> bool
        requires none { self.old.worker_result.refused ≡ None }
        requires there { from < vec_len self.old.handles }
        requires other { from ≢ self.old.own }
        ensures same { IsSameWorker self.old self.new }
        ensures owner { worker_view self.new.owner ≡ worker_view self.old.owner }
        ensures more { result ≡ true → self.new.worker_result.refused ≡ None }
        ensures refused { result ≡ false → self.new.worker_result.refused ≢ None }
        ensures found { result ≡ true → FoundAllEmpty D.all self.old.own from self.old.handles.items
            → FoundAllEmpty D.all self.old.own (from + 1) self.new.handles.items }
    {
        'other: for _ in rt.forever() {
            let Some(piece) = self.handles[from].take(rt) else {
                return true;
            };
            if !self.worker_result.finish(rt, book, gate, piece) {
                return false;
            }
        }
        unreachable!()
    }

    /// Finishes the pieces of its own deque, and then of each other one, until it finds none in it. It ends early if an
    /// update fails.
    pub fn work<R: Wait, G: Gate>(
        &mut self,
        rt: &R,
        book: &Mutex<EventBook<U, E, O>>,
        gate: &RoundGate<'_, D, G>,
    )
        ensures same { context_tag self.new ≡ context_tag self.old }
        ensures emptied { self.new.worker_result.refused ≡ None → HasEmptied D.all self.new }
    {
        if self.worker_result.refused.is_some() || !self.empty_own(rt, book, gate) {
            return;
        }
        'others: for from in 0..self.handles.len() {
            if from != self.own && !self.empty_other(rt, book, gate, from) {
                return;
            }
        }
    }
}
