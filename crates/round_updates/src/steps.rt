//! The updates of all pods in a round of one tick, by workers that one thread plays.

ghost use Rattle.std.specs.Prelude.{◌≡◌, ◌<◌, ◌≤◌, All, length, map, IfOk};
ghost use Rattle.pod_piece.specs.rule.Piece.{updated};
ghost use Rattle.worker_count.specs.rule.Limit.{most_workers};
ghost use Rattle.round_updates.specs.state.Played.{AreFinished};
ghost use Rattle.round_updates.specs.state.Update.{MayUpdate, AreEntered};

use event_book::WholeBook;
use played_round::{Played, update_played};
use pod_piece::PodPiece;
use round_steps::Step;
use std::alloc::{AllocError, Global};
use std::sync::ledger::Ledger;

/// All pods take the one tick that waits for them into their statuses, and are entered in the book, by this
/// many workers, 1 to 64, that one thread plays by these steps. An `Err` says that memory was refused.
pub fn update_by_steps<U: Ledger, E: Ledger, O: Ledger>(
    alloc: Global,
    pieces: Vec<PodPiece>,
    book: WholeBook<U, E, O>,
    workers: usize,
    steps: &[Step],
) -> Result<Played<U, E, O>, AllocError>
    requires may { MayUpdate pieces.items book }
    requires one { All (λ piece. piece.waiting ≡ 1) pieces.items }
    requires some { 0 < workers }
    requires most { workers ≤ most_workers }
    ensures pieces { IfOk result (λ played. played.pieces.items ≡ map updated pieces.items) }
    ensures book { IfOk result (λ played. AreEntered played.pieces.items book played.book) }
    ensures finished { IfOk result (λ played.
        AreFinished (length pieces.items) workers steps.now (map (λ list. list.items) played.finished.items)) }
{
    update_played(alloc, pieces, book, workers, steps)
}
