//! How what the workers keep comes together.

ghost use Rattle.std.specs.Prelude.{◌≡◌, ◌<◌, ◌≤◌, ◌+◌, ℕ, None, All, IfOk, IfErr, length, vec_len, vec_capacity};
ghost use Rattle.std.specs.List.{sum_by};
ghost use Rattle.worker_results.specs.state.Done.{weigh};
ghost use Rattle.worker_results.specs.state.Gated.{IsRefused};
ghost use Rattle.worker_results.specs.state.WorkerResults.{kept};
ghost use Rattle.pool_workers.specs.state.FinishedWorkers.{finished_kept, finished_pushed, finished_taken, IsAway};

use crate::finished_worker::FinishedWorker;
use event_book::EventBook;
use piece_deques::Deal;
use pod_piece::{Gate, PodPiece};
use std::sync::ledger::Ledger;
use std::sync::{Mutex, Wait};
use worker_results::{RoundGate, WorkerResult};

/// Empties each deque, and puts what is kept together. An `Err` is a piece whose update failed.
pub(crate) fn collect<D: Deal, U: Ledger, E: Ledger, O: Ledger, R: Wait, G: Gate>(
    rt: &R,
    book: &Mutex<EventBook<U, E, O>>,
    gate: &RoundGate<'_, D, G>,
    finished: Vec<FinishedWorker<D, U, E, O>>,
) -> Result<WorkerResult<D, U, E, O>, PodPiece>
    requires some { 0 < vec_len finished }
    requires whole { All (IsAway 0 (length D.all)) finished.items }
    requires each { (weight : ℕ → ℕ)
        → sum_by (finished_kept weight) finished.items + sum_by (finished_pushed weight) finished.items
        ≡ weigh weight D.all + sum_by (finished_taken weight) finished.items }
    ensures each { IfOk result (λ worker_result. (weight : ℕ → ℕ) → kept weight worker_result ≡ weigh weight D.all) }
    ensures none { IfOk result (λ worker_result. worker_result.refused ≡ None) }
    ensures room { IfOk result (λ worker_result. length D.all ≤ vec_capacity worker_result.done) }
    ensures parts { IfOk result (λ worker_result. worker_result.share.parts ≡ vec_len finished) }
    ensures due { IfErr result (IsRefused D.left D.all) }
{
    let mut left = finished;
    let Some(ended) = left.pop() else {
        unreachable!();
    };
    let mut total = match ended.finish(rt, book, gate) {
        Ok(total) => total,
        Err(piece) => {
            drop(left);
            return Err(piece);
        }
    };
    'joined: while let Some(ended) = left.pop() {
        match ended.finish(rt, book, gate) {
            Ok(theirs) => total.merge(theirs),
            Err(piece) => {
                drop((left, total));
                return Err(piece);
            }
        }
    }
    Ok(total)
}
