//! How the deque of a worker that has ended is emptied.

ghost use Rattle.std.specs.Prelude.{◌≡◌, ◌+◌, ◌++◌, ℕ, None, IfOk, IfErr, vec_capacity};
ghost use Rattle.std.specs.List.{sum_by};
ghost use Rattle.crossbeam_deque.specs.Handles.{view, worker_deque, worker_view, stealer_deque};
ghost use Rattle.piece_deques.specs.state.Rule.{all_parts};
ghost use Rattle.worker_results.specs.state.Gated.{IsRefused};
ghost use Rattle.worker_results.specs.state.WorkerResults.{kept};

use crate::finished_worker::FinishedWorker;
use event_book::EventBook;
use piece_deques::{Deal, pop, return_permit};
use pod_piece::{Gate, PodPiece};
use std::sync::ledger::Ledger;
use std::sync::{Mutex, Wait};
use worker_results::{RoundGate, StealHandle, WorkerResult};

impl<D: Deal, U: Ledger, E: Ledger, O: Ledger> FinishedWorker<D, U, E, O> {
    /// Takes a permit of the deque back.
    pub(crate) fn absorb(&mut self, handle: StealHandle<D>)
        requires { stealer_deque handle.thief ≡ worker_deque self.old.owner }
        ensures deque { worker_deque self.new.owner ≡ worker_deque self.old.owner }
        ensures pushed { (worker_view self.new.owner).pushed ≡ (worker_view self.old.owner).pushed }
        ensures parts { (worker_view self.new.owner).parts ≡ (worker_view self.old.owner).parts + 1 }
        ensures taken { (worker_view self.new.owner).taken
            ≡ (worker_view self.old.owner).taken ++ (view handle.permit).taken }
        ensures worker_result { self.new.worker_result ≡ self.old.worker_result }
    {
        let StealHandle { thief: _, permit } = handle;
        return_permit(&mut self.owner, permit);
    }

    /// Finishes each piece that is left in the deque, unless an update fails.
    fn drain<R: Wait, G: Gate>(
        &mut self,
        rt: &R,
        book: &Mutex<EventBook<U, E, O>>,
        gate: &RoundGate<'_, D, G>,
    )
        requires whole { (worker_view self.old.owner).parts ≡ all_parts }
        requires none { self.old.worker_result.refused ≡ None }
        ensures pushed { (worker_view self.new.owner).pushed ≡ (worker_view self.old.owner).pushed }
        ensures share { self.new.worker_result.share.parts ≡ self.old.worker_result.share.parts }
        ensures room { vec_capacity self.new.worker_result.done ≡ vec_capacity self.old.worker_result.done }
        ensures kept { (weight : ℕ → ℕ)
            → kept weight self.new.worker_result + sum_by weight (worker_view self.old.owner).taken
            ≡ kept weight self.old.worker_result + sum_by weight (worker_view self.new.owner).taken }
        ensures all { self.new.worker_result.refused ≡ None → (weight : ℕ → ℕ)
            → sum_by weight (worker_view self.new.owner).pushed ≡ sum_by weight (worker_view self.new.owner).taken }
    {
        for _ in rt.forever() {
            let Some(piece) = pop(&mut self.owner) else {
                return;
            };
            if !self.worker_result.finish(rt, book, gate, piece) {
                return;
            }
        }
        unreachable!()
    }

    /// Finishes what is left in the deque. Returns what is kept then; an `Err` is a piece whose update failed.
    pub(crate) fn finish<R: Wait, G: Gate>(
        self,
        rt: &R,
        book: &Mutex<EventBook<U, E, O>>,
        gate: &RoundGate<'_, D, G>,
    ) -> Result<WorkerResult<D, U, E, O>, PodPiece>
        requires whole { (worker_view self.owner).parts ≡ all_parts }
        requires none { self.worker_result.refused ≡ None }
        ensures each { IfOk result (λ worker_result. (weight : ℕ → ℕ)
            → kept weight worker_result + sum_by weight (worker_view self.owner).taken
            ≡ kept weight self.worker_result + sum_by weight (worker_view self.owner).pushed) }
        ensures none { IfOk result (λ r. r.refused ≡ None) }
        ensures room { IfOk result (λ r. vec_capacity r.done ≡ vec_capacity self.worker_result.done) }
        ensures room_uncounted { IfOk result (λ r. vec_capacity r.uncounted ≡ vec_capacity self.worker_result.done) }
        ensures parts { IfOk result (λ r. r.share.parts ≡ self.worker_result.share.parts) }
        ensures due { IfErr result (IsRefused D.left D.all) }
    {
        let mut ended = self;
        ended.drain(rt, book, gate);
        let FinishedWorker {
            owner: _,
            worker_result,
        } = ended;
        worker_result.complete()
    }
}
