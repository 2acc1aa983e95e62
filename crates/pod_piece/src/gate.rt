//! What makes the updates of pods.

use crate::piece::PodPiece;
use std::alloc::AllocError;

/// Makes each update of a round, and may do something of its own before and after. The number of a piece is the pod's
/// place among those for which a tick waits, which is the pod's own number in versions 1 and 2.
pub trait Gate: Sync {
    ghost use Rattle.std.specs.Prelude.{◌≡◌, ◌<◌, Bool, true, IsTrue, OnOk, OnErr, is_ok};
    ghost use Rattle.pod_piece.specs.rule.Piece.{Piece, updated};

    // Whether an update may wait in it until others have begun.
    ghost may_wait: { Self → Bool } = { λ _. true };

    // Whether it has made an update that leaves this piece, or has tried to and an allocation failed. Whoever knows a
    // gate only by its bound knows this only after its update.
    ghost left: { Self → Piece → Bool → Bool } = { λ _ _ _. true };

    /// Whether an update may wait in it until others have begun. If it may, each of the workers runs, as long as there
    /// is a pod for each, however few updates there are.
    fn waits(&self) -> bool
        ensures { result ≡ may_wait self.now };

    /// Applies the oldest waiting tick of a piece to its status, in place. Returns `Err` if an allocation fails; the
    /// piece is then as it was, so the tick still waits.
    fn update(&self, piece: &mut PodPiece) -> Result<(), AllocError>
        requires { 0 < piece.old.waiting }
        ensures ok { OnOk result (piece.new ≡ updated piece.old) }
        ensures err { OnErr result (piece.new ≡ piece.old) }
        ensures left { IsTrue (left self.now piece.new (is_ok result)) };
}

/// A gate that makes each update, and does nothing else.
pub struct NoGate;

impl Gate for NoGate {
    ghost use Rattle.std.specs.Prelude.{false};

    ghost may_wait = { λ _. false };

    fn waits(&self) -> bool {
        false
    }

    fn update(&self, piece: &mut PodPiece) -> Result<(), AllocError> {
        piece.update_in_place()
    }
}
