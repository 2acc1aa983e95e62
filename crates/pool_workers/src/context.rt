//! What a worker is lent.

ghost use Rattle.std.specs.Prelude.{◌≡◌, ◌≤◌, ◌+◌, ℕ, length, vec_capacity};
ghost use Rattle.std.specs.List.{sum_by};
ghost use Rattle.crossbeam_deque.specs.Handles.{worker_view};
ghost use Rattle.piece_deques.specs.state.Ends.{IsOwner};
ghost use Rattle.worker_results.specs.state.WorkerResults.{kept};
ghost use Rattle.pool_workers.specs.state.Permits.{owner_deque, pushed_to, taken_by, IsUnused};

use piece_deques::{Deal, Owner};
use std::sync::ledger::Ledger;
use worker_results::{StealHandle, WorkerResult};

/// The owner's end of a deque, the place of that deque among all, a permit of each deque in their order, and what the
/// worker keeps: the pieces that it took, once each. By the permit of its own deque nothing is taken. There is room for
/// all pieces of the round, once each.
#[derive(Drop)]
pub struct WorkerContext<D: Deal, U: Ledger, E: Ledger, O: Ledger> {
    pub owner: Owner<D>,
    pub own: usize,
    pub handles: Vec<StealHandle<D>>,
    pub worker_result: WorkerResult<D, U, E, O>,
    pub ghost owns: { IsOwner owner },
    pub ghost few: { length (worker_view owner).taken ≤ length (worker_view owner).pushed },
    pub ghost unused: { IsUnused (owner_deque owner) own handles.items },
    pub ghost matched: { (weight : ℕ → ℕ)
        → kept weight worker_result ≡ sum_by weight (worker_view owner).taken + taken_by weight handles.items },
    pub ghost room: { pushed_to handles.items ≤ vec_capacity worker_result.done },
    pub ghost room_uncounted: { vec_capacity worker_result.uncounted ≡ vec_capacity worker_result.done },
}
