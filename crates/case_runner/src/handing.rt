//! Passes to a pod what a tick shows of it.

ghost use Rattle.std.specs.Prelude.{◌≡◌, ◌<◌, ◌↔◌, Err, IsTrue, OnErr, OnOk};
ghost use Rattle.pod_state.specs.rule.Pods.{pod_tick};
ghost use Rattle.pod_piece.specs.state.Piece.{with_tick};
ghost use Rattle.case_runner.specs.state.Pods.{MayBeHanded};
ghost use Rattle.case_runner.specs.declared.handing.Unhanded.TheVariants.{NotNext};

use histories::is_before;
use observations::PodObs;
use pod_piece::PodPiece;
use quantity::END_OF_TIME;

/// Why a pod did not take what a tick shows of it.
#[derive(Clone, Copy)]
pub(crate) enum Unhanded {
    /// The observation may not come next.
    NotNext,
    /// An allocation failed.
    OutOfMemory,
}

/// Whether the observation may come next.
fn may_take(piece: &PodPiece, observed: &PodObs) -> bool
    ensures { IsTrue result ↔ MayBeHanded piece.now (pod_tick observed.now) }
{
    if piece.pending() {
        return false;
    }
    observed.at() < END_OF_TIME
        && is_before(piece.last_at(), observed.at())
        && piece.accepts(observed)
}

/// The pod takes an observation, if it may come next. An `Err` changes nothing, and is `NotNext` exactly if the
/// observation may not come next.
pub(crate) fn hand(piece: &mut PodPiece, observed: PodObs) -> Result<(), Unhanded>
    ensures ok { OnOk result (piece.new ≡ with_tick piece.old (pod_tick observed)) }
    ensures err { OnErr result (piece.new ≡ piece.old) }
    ensures not_next { (result ≡ Err NotNext) ↔ (MayBeHanded piece.old (pod_tick observed) → ⊥) }
    ensures number { piece.new.number ≡ piece.old.number }
    ensures pending { OnOk result (0 < piece.new.waiting) }
{
    if !may_take(piece, &observed) {
        return Err(Unhanded::NotNext);
    }
    match piece.hand(observed) {
        Ok(()) => Ok(()),
        Err(_) => Err(Unhanded::OutOfMemory),
    }
}
