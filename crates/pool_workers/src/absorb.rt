//! How the permits go back to their deques.

ghost use Rattle.std.specs.Prelude.{◌≡◌, ◌+◌, ◌*◌, ℕ, All, length, map, vec_len};
ghost use Rattle.std.specs.List.{sum_by};
ghost use Rattle.pool_workers.specs.state.Permits.{taken_by};
ghost use Rattle.pool_workers.specs.state.FinishedWorkers.{finished_deque, finished_parts, finished_taken, IsRow};
ghost use Rattle.pool_workers.specs.state.FinishedWorkers.{StandAt};

use crate::finished_worker::FinishedWorker;
use piece_deques::Deal;
use std::sync::ledger::Ledger;
use worker_results::StealHandle;

/// Takes the permits of one row back.
fn absorb<D: Deal, U: Ledger, E: Ledger, O: Ledger>(
    finished: &mut Vec<FinishedWorker<D, U, E, O>>,
    row: Vec<StealHandle<D>>,
)
    requires { StandAt row.items (map finished_deque finished.old.items) }
    ensures filled { map finished_deque finished.new.items ≡ map finished_deque finished.old.items }
    ensures worker_results { map (λ r. r.worker_result) finished.new.items
        ≡ map (λ r. r.worker_result) finished.old.items }
    ensures parts { sum_by finished_parts finished.new.items
        ≡ sum_by finished_parts finished.old.items + length row.items }
    ensures taken { (weight : ℕ → ℕ) → sum_by (finished_taken weight) finished.new.items
        ≡ sum_by (finished_taken weight) finished.old.items + taken_by weight row.items }
{
    let mut row = row;
    while let Some(handle) = row.pop() {
        let at = row.len();
        finished[at].absorb(handle);
    }
}

/// Takes the permits of all rows back.
pub(crate) fn absorb_all<D: Deal, U: Ledger, E: Ledger, O: Ledger>(
    finished: &mut Vec<FinishedWorker<D, U, E, O>>,
    rows: Vec<Vec<StealHandle<D>>>,
)
    requires { All (IsRow (map finished_deque finished.old.items)) rows.items }
    ensures filled { map finished_deque finished.new.items ≡ map finished_deque finished.old.items }
    ensures worker_results { map (λ r. r.worker_result) finished.new.items
        ≡ map (λ r. r.worker_result) finished.old.items }
    ensures parts { sum_by finished_parts finished.new.items
        ≡ sum_by finished_parts finished.old.items + vec_len rows * vec_len finished.old }
    ensures taken { (weight : ℕ → ℕ) → sum_by (finished_taken weight) finished.new.items
        ≡ sum_by (finished_taken weight) finished.old.items + sum_by (λ row. taken_by weight row.items) rows.items }
{
    let mut rows = rows;
    while let Some(row) = rows.pop() {
        absorb(finished, row);
    }
}
