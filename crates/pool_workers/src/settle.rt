//! The end of a round: pieces that the book had no room for are entered, and all pieces are put in order.

ghost use Rattle.std.specs.Prelude.{◌≡◌, ◌≤◌, ◌+◌, ℕ, List, None, length, vec_capacity};
ghost use Rattle.observations.specs.rule.Limits.{most_pods};
ghost use Rattle.totals.specs.declared.totals.Totals.{Totals as SomeTotals};
ghost use Rattle.totals.specs.state.Rounds.{AreAdditionsOf};
ghost use Rattle.event_book.specs.state.Shares.{most_parts};
ghost use Rattle.totals.specs.state.Limits.{AreLow};
ghost use Rattle.piece_deques.specs.state.Rule.{AreNumbered};
ghost use Rattle.worker_results.specs.state.Done.{weigh};
ghost use Rattle.worker_results.specs.state.WorkerResults.{kept};
ghost use Rattle.pool_workers.specs.state.Order.{IsRoundDone};

use event_book::{EventBook, Shares};
use piece_deques::Deal;
use pod_piece::PodPiece;
use std::sync::ledger::Ledger;
use std::sync::{Mutex, Wait};
use totals::Totals;
use worker_results::{WorkerResult, in_order};

/// For the proof alone: what each piece adds is a value, so that the sum of them all is one too.
fn look_over(pieces: &[PodPiece])
    ensures { (additions : List SomeTotals) × AreAdditionsOf pieces.now additions }
{
    for piece in pieces {
        let _addition = Totals::of_round(piece);
    }
}

/// Enters the uncounted pieces with the whole share, and puts all pieces in order.
pub(crate) fn settle<D: Deal, U: Ledger, E: Ledger, O: Ledger, R: Wait>(
    rt: &R,
    book: &Mutex<EventBook<U, E, O>>,
    total: WorkerResult<D, U, E, O>,
    share: Shares<U, E, O>,
) -> (Vec<PodPiece>, Shares<U, E, O>)
    requires numbered { AreNumbered D.all }
    requires few { length D.all ≤ most_pods }
    requires none { total.refused ≡ None }
    requires each { (weight : ℕ → ℕ) → kept weight total ≡ weigh weight D.all }
    requires room { length D.all ≤ vec_capacity total.done }
    requires level { (U.parts ≡ most_parts) × (E.parts ≡ most_parts) × (O.parts ≡ most_parts) }
    requires whole { share.parts + total.share.parts ≡ most_parts }
    requires low { AreLow share.totals }
    ensures { IsRoundDone D.left D.all share result.0.items result.1 }
{
    let WorkerResult {
        done,
        uncounted,
        refused: _,
        share: theirs,
        of: _,
    } = total;
    let mut share = share;
    share.join(theirs);
    let mut done = done;
    let mut uncounted = uncounted;
    // A worker that met a full book had one part of the share alone; the whole share shows that there is room.
    // (docs/decisions/rounds.md)
    'entered: while let Some(piece) = uncounted.pop() {
        let more = Totals::of_round(&piece);
        book.lock(rt).add_whole(more, &mut share);
        done.push_reserved(piece);
    }
    // The deques hold the pieces themselves, since two threads cannot write in one table.
    // (docs/decisions/rounds.md)
    let pieces = in_order::<D>(done);
    look_over(&pieces);
    (pieces, share)
}
