//! The whole of a simulated round.

ghost use Rattle.std.specs.Prelude.{◌≡◌, ◌+◌, ◌<◌, ◌≤◌, List, All, IsTrue, length, map, OnOk, IfOk, replicate};
ghost use Rattle.observations.specs.rule.Limits.{most_pods};
ghost use Rattle.pod_piece.specs.rule.Piece.{updated};
ghost use Rattle.totals.specs.declared.totals.Entry.{Entry};
ghost use Rattle.totals.specs.state.Totals.{plus, sums_of, AreEntriesOf};
ghost use Rattle.event_book.specs.state.Shares.{most_parts};
ghost use Rattle.worker_count.specs.rule.Limit.{most_workers};
ghost use Rattle.totals.specs.state.Limits.{AreLow};
ghost use Rattle.round_core.specs.state.Pool.{idle, after_drain, finished_lists};
ghost use Rattle.round_core.specs.state.Places.{sum_of_shares};
ghost use Rattle.played_round.specs.state.Round.{dealt, with_pool, IsFresh, IsWhole};

use crate::round::Round;
use crate::table::Table;
use crate::worker::Worker;
use event_book::{Shares, WholeBook};
use pod_piece::PodPiece;
use round_steps::Step;
use std::alloc::{AllocError, Global};
use std::sync::ledger::Ledger;

/// What a simulated round gives.
#[derive(Drop)]
pub struct Played<U: Ledger, E: Ledger, O: Ledger> {
    /// The pieces, updated, by their numbers.
    pub pieces: Vec<PodPiece>,
    /// The book, with what the round added to it.
    pub book: WholeBook<U, E, O>,
    /// For each worker the numbers of the pieces that it has finished, in order.
    pub finished: Vec<Vec<usize>>,
}

/// Workers with nothing to do, each with a part of the share.
fn idle_workers<U: Ledger, E: Ledger, O: Ledger>(
    alloc: Global,
    share: &mut Shares<U, E, O>,
    count: usize,
) -> Result<Vec<Worker<U, E, O>>, AllocError>
    requires { count < share.old.parts }
    ensures workers { IfOk result (λ workers. workers.items ≡ replicate count idle) }
    ensures parts { OnOk result (share.new.parts + count ≡ share.old.parts) }
    ensures totals { OnOk result (share.new.totals ≡ share.old.totals) }
{
    let mut workers = Vec::new(alloc);
    for _count in 0..count {
        workers.push(Worker::idle(alloc, share.split()))?;
    }
    Ok(workers)
}

/// Deals the pieces: each goes to the worker of its number modulo the workers.
fn deal<U: Ledger, E: Ledger, O: Ledger>(
    mut round: Round<U, E, O>,
    workers: usize,
) -> Result<Round<U, E, O>, AllocError>
    requires some { 0 < workers }
    requires idle { round.pool.workers ≡ replicate workers idle }
    ensures { IfOk result (λ given.
        given ≡ with_pool round (dealt workers (length round.table.pieces) round.pool.book)) }
{
    for number in 0..round.table.len() {
        round.give(number % workers, number)?;
    }
    Ok(round)
}

/// Deals the pieces of a round, takes these steps, and drains what is left.
fn play<U: Ledger, E: Ledger, O: Ledger>(
    round: Round<U, E, O>,
    workers: usize,
    steps: &[Step],
) -> Result<Round<U, E, O>, AllocError>
    requires some { 0 < workers }
    requires fresh { IsFresh workers round }
    ensures { IfOk result (IsWhole round workers steps.now) }
{
    let mut round = deal(round, workers)?;
    round.run(steps)?;
    round.drain()?;
    Ok(round)
}

/// What the workers have finished; their shares join this one.
fn gather<U: Ledger, E: Ledger, O: Ledger>(
    alloc: Global,
    workers: Vec<Worker<U, E, O>>,
    share: &mut Shares<U, E, O>,
) -> Result<Vec<Vec<usize>>, AllocError>
    ensures finished { IfOk result (λ lists.
        map (λ list. list.items) lists.items ≡ map (λ worker. worker.finished) workers.items) }
    ensures parts { OnOk result (share.new.parts ≡ share.old.parts + length workers.items) }
    ensures totals { OnOk result (share.new.totals ≡ plus share.old.totals (sum_of_shares workers.items)) }
{
    let mut finished = Vec::new(alloc);
    for worker in workers {
        let (list, part) = worker.into_parts();
        share.join(part);
        finished.push(list)?;
    }
    Ok(finished)
}

/// The pieces and the book of a round that has ended.
fn close<U: Ledger, E: Ledger, O: Ledger>(
    alloc: Global,
    round: Round<U, E, O>,
    mut share: Shares<U, E, O>,
) -> Result<Played<U, E, O>, AllocError>
    requires parts { share.parts + length round.pool.workers ≡ most_parts }
    requires level { (U.parts ≡ most_parts) × (E.parts ≡ most_parts) × (O.parts ≡ most_parts) }
    ensures pieces { IfOk result (λ played. played.pieces.items ≡ round.table.pieces) }
    ensures book { IfOk result (λ played. played.book ≡ plus share.totals (sum_of_shares round.pool.workers)) }
    ensures finished { IfOk result (λ played.
        map (λ list. list.items) played.finished.items ≡ finished_lists round.pool) }
{
    let Round {
        table,
        workers,
        book,
    } = round;
    let finished = gather(alloc, workers, &mut share)?;
    Ok(Played {
        pieces: table.pieces,
        book: WholeBook::of_parts(book, share),
        finished,
    })
}

/// Simulates a round of waiting pieces on one thread: deals them to the workers, takes these steps, and drains what is
/// left. Each piece is updated once, and entered in the book with a part of its share for each worker. A step that is
/// not possible, or that names a worker that is not there, is skipped. The one error is a failed allocation.
pub fn update_played<U: Ledger, E: Ledger, O: Ledger>(
    alloc: Global,
    pieces: Vec<PodPiece>,
    book: WholeBook<U, E, O>,
    workers: usize,
    steps: &[Step],
) -> Result<Played<U, E, O>, AllocError>
    requires pending { All (λ piece. piece.waiting ≡ 1) pieces.items }
    requires few { length pieces.items ≤ most_pods }
    requires low { AreLow book }
    requires some { 0 < workers }
    requires most { workers ≤ most_workers }
    ensures pieces { IfOk result (λ played. played.pieces.items ≡ map updated pieces.items) }
    ensures book { IfOk result (λ played. (entries : List Entry) × AreEntriesOf played.pieces.items entries
        × (played.book ≡ plus book (sums_of entries))) }
    ensures finished { IfOk result (λ played. (entries : List Entry) → length entries ≡ length pieces.items
        → map (λ list. list.items) played.finished.items ≡ finished_lists (after_drain entries workers steps.now)) }
{
    let (events, mut share) = book.into_parts();
    let idle = idle_workers(alloc, &mut share, workers)?;
    let table = Table::new(alloc, pieces)?;
    let round = Round {
        table,
        workers: idle,
        book: events,
    };
    let round = play(round, workers, steps)?;
    let played = close(alloc, round, share)?;
    Ok(played)
}
