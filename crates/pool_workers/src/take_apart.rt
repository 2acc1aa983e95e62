//! How a context is taken apart.

ghost use Rattle.std.specs.Prelude.{◌≡◌, ◌≤◌, ◌+◌, ℕ, [], None, All, IfOk, IfErr, OnOk, map, vec_len, vec_capacity};
ghost use Rattle.std.specs.List.{sum_by};
ghost use Rattle.crossbeam_deque.specs.Handles.{worker_view};
ghost use Rattle.piece_deques.specs.state.Rule.{all_parts};
ghost use Rattle.worker_results.specs.state.Gated.{IsRefused};
ghost use Rattle.pool_workers.specs.state.Permits.{pushed_count, taken_by};
ghost use Rattle.pool_workers.specs.state.Contexts.{context_deque, context_tag, IsLaid};
ghost use Rattle.pool_workers.specs.state.FinishedWorkers.{finished_deque, finished_kept, finished_taken};
ghost use Rattle.pool_workers.specs.state.FinishedWorkers.{IsAway, IsRow};

use crate::context::WorkerContext;
use crate::finished_worker::FinishedWorker;
use piece_deques::Deal;
use pod_piece::PodPiece;
use std::sync::ledger::Ledger;
use worker_results::StealHandle;

/// Parts the permits from the rest. An `Err` is the piece whose update failed.
fn take_apart<D: Deal, U: Ledger, E: Ledger, O: Ledger>(
    context: WorkerContext<D, U, E, O>,
) -> Result<(FinishedWorker<D, U, E, O>, Vec<StealHandle<D>>), PodPiece>
    requires { (worker_view context.owner).parts ≤ all_parts }
    ensures owner { IfOk result (λ r. r.0.owner ≡ context.owner) }
    ensures worker_result { IfOk result (λ r. r.0.worker_result ≡ context.worker_result) }
    ensures none { IfOk result (λ r. r.0.worker_result.refused ≡ None) }
    ensures handles { IfOk result (λ r. r.1 ≡ context.handles) }
    ensures due { IfErr result (IsRefused D.left D.all) }
{
    let WorkerContext {
        owner,
        own: _,
        handles,
        worker_result,
    } = context;
    match worker_result.complete() {
        Ok(worker_result) => Ok((
            FinishedWorker {
                owner,
                worker_result,
            },
            handles,
        )),
        Err(piece) => {
            drop((owner, handles));
            Err(piece)
        }
    }
}

/// Parts the permits from each context, in their order. An `Err` is a piece whose update failed.
pub(crate) fn take_all_apart<D: Deal, U: Ledger, E: Ledger, O: Ledger>(
    contexts: Vec<WorkerContext<D, U, E, O>>,
    finished: &mut Vec<FinishedWorker<D, U, E, O>>,
    rows: &mut Vec<Vec<StealHandle<D>>>,
) -> Result<(), PodPiece>
    requires laid { All (λ context. IsLaid (vec_len contexts) (map context_deque contexts.items) (context_tag context))
        contexts.items }
    requires none { finished.old.items ≡ [] }
    requires empty { rows.old.items ≡ [] }
    requires room { vec_len contexts ≤ vec_capacity finished.old }
    requires room_rows { vec_len contexts ≤ vec_capacity rows.old }
    ensures len { OnOk result (vec_len finished.new ≡ vec_len contexts) }
    ensures len_rows { OnOk result (vec_len rows.new ≡ vec_len contexts) }
    ensures filled { OnOk result (map finished_deque finished.new.items ≡ map context_deque contexts.items) }
    ensures finished { OnOk result (All (IsAway (vec_len contexts) (pushed_count (map context_deque contexts.items)))
        finished.new.items) }
    ensures rows { OnOk result (All (IsRow (map context_deque contexts.items)) rows.new.items) }
    ensures kept { OnOk result ((weight : ℕ → ℕ) → sum_by (finished_kept weight) finished.new.items
        ≡ sum_by (finished_taken weight) finished.new.items + sum_by
        (λ row. taken_by weight row.items) rows.new.items) }
    ensures due { IfErr result (IsRefused D.left D.all) }
{
    let mut left = contexts;
    left.reverse();
    while let Some(context) = left.pop() {
        let (ended, row) = take_apart(context)?;
        finished.push_reserved(ended);
        rows.push_reserved(row);
    }
    Ok(())
}
