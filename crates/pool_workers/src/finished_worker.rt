//! What is left of a worker that has ended.

ghost use Rattle.std.specs.Prelude.{◌≡◌, ◌≤◌, ◌+◌, length, vec_capacity};
ghost use Rattle.crossbeam_deque.specs.Handles.{worker_view};
ghost use Rattle.piece_deques.specs.state.Rule.{all_parts};
ghost use Rattle.piece_deques.specs.state.Ends.{IsOwner};
ghost use Rattle.worker_results.specs.state.WorkerResults.{kept};

use piece_deques::{Deal, Owner};
use std::sync::ledger::Ledger;
use worker_results::WorkerResult;

/// The owner's end of a deque, and what its worker keeps.
#[derive(Drop)]
pub(crate) struct FinishedWorker<D: Deal, U: Ledger, E: Ledger, O: Ledger> {
    pub(crate) owner: Owner<D>,
    pub(crate) worker_result: WorkerResult<D, U, E, O>,
    pub ghost owns: { IsOwner owner },
    pub ghost bounded: { (worker_view owner).parts ≤ all_parts },
    pub ghost few: { length (worker_view owner).taken ≤ length (worker_view owner).pushed },
    pub ghost room: { kept (λ _. 1) worker_result + length (worker_view owner).pushed
        ≤ vec_capacity worker_result.done + length (worker_view owner).taken },
    pub ghost room_uncounted: { vec_capacity worker_result.uncounted ≡ vec_capacity worker_result.done },
}
