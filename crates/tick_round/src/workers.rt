//! The updates of all pods in a round, by workers.

ghost use Rattle.std.specs.Prelude.{◌≡◌, ◌<◌, ◌≤◌, length, map, min, max};
ghost use Rattle.std.specs.Prelude.{IfOk, IsErr, OnOk, OnErr, MatchResult, if◌then◌else◌};
ghost use Rattle.std.specs.Result.{IsOkAnd};
ghost use Rattle.pod_piece.specs.state.Piece.{all_updated};
ghost use Rattle.event_book.specs.state.Shares.{most_parts};
ghost use Rattle.worker_count.specs.rule.Limit.{most_workers};
ghost use Rattle.piece_deques.specs.state.Rule.{AreNumbered};
ghost use Rattle.worker_results.specs.state.Gated.{AreGated, WasRefused};
ghost use Rattle.round_updates.specs.state.Update.{MayUpdate};
ghost use Rattle.totals.specs.state.Rounds.{AreAdded};
ghost use Rattle.tick_round.specs.state.Workers.{worth_their_start, running};

use event_book::{EventBook, Shares, WholeBook};
use pod_piece::{Gate, PodPiece};
use pod_pool::{PoolFault, Spawner, update_all};
use round_updates::update_alone;
use std::alloc::{AllocError, Global};
use std::sync::Mutex;
use std::sync::ledger::Ledger;

/// A worker is worth the start of its thread if it has this many updates. An update takes less than a microsecond, and
/// a thread more than thirty.
const UPDATES_A_WORKER: usize = 1024;

/// This many workers are worth their start, where no update waits for others.
fn worth_their_start(workers: usize, updates: usize) -> usize
    requires { 0 < workers }
    ensures is { result ≡ worth_their_start workers updates }
    ensures some { 0 < result }
    ensures most { result ≤ workers }
{
    // With a thread for each worker a tick of 256 pods took 1.2 times as long as with one.
    // (docs/decisions/rounds.md)
    (updates / UPDATES_A_WORKER).clamp(1, workers)
}

/// This many workers run: all where an update may wait for others, else those that are worth their start.
fn workers_to_run<G: Gate>(workers: usize, updates: usize, gate: &G) -> usize
    requires { 0 < workers }
    ensures is { result ≡ (if G.may_wait gate.now then workers else worth_their_start workers updates) }
    ensures some { 0 < result }
    ensures most { result ≤ workers }
{
    if gate.waits() {
        workers
    } else {
        worth_their_start(workers, updates)
    }
}

/// The pieces that workers have updated, and the book out of its lock. Returns `Err` if an allocation of the workers
/// failed; doesn't allocate itself.
fn put_together<U: Ledger, E: Ledger, O: Ledger>(
    updated: Result<(Vec<PodPiece>, Shares<U, E, O>), PoolFault<U, E, O>>,
    events: Mutex<EventBook<U, E, O>>,
) -> Result<(Vec<PodPiece>, WholeBook<U, E, O>), AllocError>
    requires whole { IfOk updated (λ u. u.1.parts ≡ most_parts) }
    requires level { (U.parts ≡ most_parts) × (E.parts ≡ most_parts) × (O.parts ≡ most_parts) }
    ensures { MatchResult updated (λ u. IsOkAnd result (λ r. (r.0 ≡ u.0) × (r.1 ≡ u.1.totals))) (λ _. IsErr result) }
{
    match updated {
        Ok((pieces, share)) => Ok((pieces, WholeBook::of_parts(events.into_inner(), share))),
        Err(_) => Err(AllocError),
    }
}

/// All pods take the ticks that wait for them into their statuses, and are entered in the book, by this many workers, 1
/// to 64; if no update waits in the gate, by no more than are worth their start for so many updates. The book is theirs
/// under a lock until they have ended. One worker needs no thread, no deque and no lock. Returns `Err` if an allocation
/// fails; with one worker only an update allocates.
pub fn update_by_workers<U: Ledger + Send, E: Ledger + Send, O: Ledger + Send, R: Spawner, G: Gate>(
    rt: &R,
    alloc: Global,
    pieces: Vec<PodPiece>,
    book: WholeBook<U, E, O>,
    workers: usize,
    updates: usize,
    gate: &G,
) -> Result<(Vec<PodPiece>, WholeBook<U, E, O>), AllocError>
    requires may { MayUpdate pieces.items book }
    requires numbered { AreNumbered pieces.items }
    requires some { 0 < workers }
    requires most { workers ≤ most_workers }
    ensures pieces { IfOk result (λ r. r.0.items ≡ map all_updated pieces.items) }
    ensures book { IfOk result (λ r. AreAdded r.0.items book r.1) }
    ensures gated { OnOk result (AreGated (G.left gate.now) pieces.items) }
    ensures refused { running (G.may_wait gate.now) workers (length pieces.items) updates ≡ 1
        → OnErr result (WasRefused (G.left gate.now)) }
{
    // One pod is updated by one thread, however many of its ticks wait.
    let workers = workers_to_run(workers.min(pieces.len().max(1)), updates, gate);
    if workers == 1 {
        return update_alone(pieces, book, gate);
    }
    let (events, share) = book.into_parts();
    let events = Mutex::new(events);
    let updated = update_all(rt, alloc, pieces, &events, share, workers, gate);
    put_together(updated, events)
}
