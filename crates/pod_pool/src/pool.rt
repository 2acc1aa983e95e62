//! The pool.

ghost use Rattle.std.specs.Prelude.{◌≡◌, ◌<◌, ◌≤◌, All, IfOk, IfErr, OnOk, length, map, min, max};
ghost use Rattle.observations.specs.rule.Limits.{most_pods};
ghost use Rattle.pod_piece.specs.state.Piece.{all_updated};
ghost use Rattle.event_book.specs.state.Shares.{most_parts};
ghost use Rattle.worker_count.specs.rule.Limit.{most_workers};
ghost use Rattle.totals.specs.state.Limits.{AreLow};
ghost use Rattle.piece_deques.specs.state.Rule.{AreNumbered};
ghost use Rattle.worker_results.specs.state.Gated.{AreGated};
ghost use Rattle.pool_workers.specs.state.Order.{HasEntered};
ghost use Rattle.pod_pool.specs.state.Faults.{GivesBack, IsRefusalOf};

use crate::fault::PoolFault;
use event_book::{EventBook, Shares};
use piece_deques::Deal;
use pod_piece::{Gate, PodPiece};
use pool_workers::{ResultBuffers, Spawner, gather, lay_out, make_buffers, run};
use std::alloc::Global;
use std::marker::{Brand, PhantomData};
use std::sync::Mutex;
use std::sync::ledger::Ledger;
use worker_results::RoundGate;

/// This many workers have something to do: no more than pieces, and one at least.
fn busy(workers: usize, pieces: usize) -> usize
    requires { 0 < workers }
    ensures is { result ≡ min workers (max pieces 1) }
    ensures some { 0 < result }
    ensures most { result ≤ workers }
{
    workers.min(pieces.max(1))
}

/// [`update_all`] with a deal of these pieces, where each of the workers has something to do.
fn pool<
    D: Deal + Send + Sync,
    U: Ledger + Send,
    E: Ledger + Send,
    O: Ledger + Send,
    R: Spawner,
    G: Gate,
>(
    rt: &R,
    alloc: Global,
    pieces: Vec<PodPiece>,
    book: &Mutex<EventBook<U, E, O>>,
    share: Shares<U, E, O>,
    workers: usize,
    gate: &G,
) -> Result<(Vec<PodPiece>, Shares<U, E, O>), PoolFault<U, E, O>>
    requires all { D.all ≡ pieces.items }
    requires left { D.left ≡ G.left gate.now }
    requires pending { All (λ piece. 0 < piece.waiting) pieces.items }
    requires numbered { AreNumbered pieces.items }
    requires few { length pieces.items ≤ most_pods }
    requires some { 0 < workers }
    requires most { workers ≤ most_workers }
    requires whole { share.parts ≡ most_parts }
    requires level { (U.parts ≡ most_parts) × (E.parts ≡ most_parts) × (O.parts ≡ most_parts) }
    requires low { AreLow share.totals }
    ensures pieces { IfOk result (λ r. r.0.items ≡ map all_updated pieces.items) }
    ensures share { IfOk result (λ r. HasEntered r.0.items share r.1) }
    ensures fault { IfErr result (GivesBack pieces share) }
    ensures gated { OnOk result (AreGated (G.left gate.now) pieces.items) }
    ensures refused { IfErr result (IsRefusalOf (G.left gate.now)) }
{
    // All memory is allocated before the first piece is dealt, so a failure returns pieces and share.
    // (docs/decisions/rounds.md)
    let Ok(buffers) = make_buffers::<D, U, E, O>(alloc, pieces.len(), workers) else {
        return Err(PoolFault::NoRoom(pieces, share));
    };
    let Ok(room) = ResultBuffers::<D, U, E, O>::new(alloc, workers) else {
        return Err(PoolFault::NoRoom(pieces, share));
    };
    let gate = RoundGate::<D, G> {
        gate,
        of: PhantomData,
    };
    let mut share = share;
    let mut contexts = lay_out(buffers, pieces, &mut share);
    run(rt, book, &gate, contexts.as_mut_slice());
    match gather(rt, book, &gate, room, contexts, share) {
        Ok(answer) => Ok(answer),
        Err(piece) => Err(PoolFault::Update(piece)),
    }
}

/// Takes all waiting ticks of each waiting piece of a round into its status, in their order, and enters it once in the
/// book with the whole share of the book: this many workers, 1 to 64, do it in threads of their own, no more than there
/// are pieces, and take what is left in the deques of others once their own are empty. Returns the pieces in the order
/// of their numbers, whatever the threads do, and the share, whose totals have grown by what the round of each piece
/// adds: an update for each of its ticks, with their events.
///
/// Returns `Err` if an allocation fails. At `NoRoom` no piece was dealt: pieces and share are as they were. At `Update`
/// one of the pieces comes back with the ticks left that are still to come, one at least and no more than it was dealt
/// with; the others and the share are dropped. Each update is one of the gate, made or failed.
pub fn update_all<U: Ledger + Send, E: Ledger + Send, O: Ledger + Send, R: Spawner, G: Gate>(
    rt: &R,
    alloc: Global,
    pieces: Vec<PodPiece>,
    book: &Mutex<EventBook<U, E, O>>,
    share: Shares<U, E, O>,
    workers: usize,
    gate: &G,
) -> Result<(Vec<PodPiece>, Shares<U, E, O>), PoolFault<U, E, O>>
    requires pending { All (λ piece. 0 < piece.waiting) pieces.items }
    requires numbered { AreNumbered pieces.items }
    requires few { length pieces.items ≤ most_pods }
    requires some { 0 < workers }
    requires most { workers ≤ most_workers }
    requires whole { share.parts ≡ most_parts }
    requires level { (U.parts ≡ most_parts) × (E.parts ≡ most_parts) × (O.parts ≡ most_parts) }
    requires low { AreLow share.totals }
    ensures pieces { IfOk result (λ r. r.0.items ≡ map all_updated pieces.items) }
    ensures share { IfOk result (λ r. HasEntered r.0.items share r.1) }
    ensures fault { IfErr result (GivesBack pieces share) }
    ensures gated { OnOk result (AreGated (G.left gate.now) pieces.items) }
    ensures refused { IfErr result (IsRefusalOf (G.left gate.now)) }
{
    // A further worker would find nothing to do. (docs/decisions/rounds.md)
    let workers = busy(workers, pieces.len());
    pool::<Brand, U, E, O, R, G>(rt, alloc, pieces, book, share, workers, gate)
}
