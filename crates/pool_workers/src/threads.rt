//! The workers' threads.

ghost use Rattle.std.specs.Prelude.{◌≡◌, ◌<◌, None, All, length, map};
ghost use Rattle.pool_workers.specs.state.Contexts.{context_tag, HasEmptied};

use crate::context::WorkerContext;
use crate::spawner::Spawner;
use event_book::EventBook;
use piece_deques::Deal;
use pod_piece::Gate;
use std::sync::Mutex;
use std::sync::ledger::Ledger;
use std::thread;
use worker_results::RoundGate;

/// Runs a worker for each context, in as many threads, which come from halving the range of workers. If the system
/// starts fewer threads, the running ones do the rest. Each ends when it has found every deque empty, or if an update
/// fails.
pub fn run<
    D: Deal + Send + Sync,
    U: Ledger + Send,
    E: Ledger + Send,
    O: Ledger + Send,
    R: Spawner,
    G: Gate,
>(
    rt: &R,
    book: &Mutex<EventBook<U, E, O>>,
    gate: &RoundGate<'_, D, G>,
    contexts: &mut [WorkerContext<D, U, E, O>],
)
    requires { 0 < length contexts.old }
    ensures same { map context_tag contexts.new ≡ map context_tag contexts.old }
    ensures emptied { All (λ context. context.worker_result.refused ≡ None → HasEmptied D.all context) contexts.new }
{
    let workers = contexts.len();
    thread::for_each_mut(
        rt,
        contexts,
        workers,
        &|_, context| context.work(rt, book, gate),
    );
}
