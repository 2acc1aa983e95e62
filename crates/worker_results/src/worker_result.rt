//! The pieces that a worker has updated.

ghost use Rattle.std.specs.Prelude.{◌<◌, All};
ghost use Rattle.std.specs.Option.{option_to_list};
ghost use Rattle.worker_results.specs.state.Done.{AreSumsOf};
ghost use Rattle.worker_results.specs.state.Gated.{IsFinished, IsRefused};

use event_book::Shares;
use piece_deques::Deal;
use pod_piece::PodPiece;
use std::marker::PhantomData;
use std::sync::ledger::Ledger;

/// What a worker keeps: updated pieces that are entered in the book, pieces that are not counted yet, since the book
/// had no room for them, the piece whose update failed, and the share with which it enters.
///
/// By its type these are pieces of the round, and the gate has made their updates. Of the failed one some ticks still
/// wait, and of the others none; the totals of the share are what the rounds of the entered ones add.
#[derive(Drop)]
pub struct WorkerResult<D: Deal, U: Ledger, E: Ledger, O: Ledger> {
    pub done: Vec<PodPiece>,
    pub uncounted: Vec<PodPiece>,
    pub refused: Option<PodPiece>,
    pub share: Shares<U, E, O>,
    pub of: PhantomData<D>,
    pub ghost right: { All (IsFinished D.left D.all) done.items },
    pub ghost right_uncounted: { All (IsFinished D.left D.all) uncounted.items },
    pub ghost due: { All (IsRefused D.left D.all) (option_to_list refused) },
    pub ghost counts: { AreSumsOf done.items share.totals },
    pub ghost part: { 0 < share.parts },
}
