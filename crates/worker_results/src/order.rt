//! The order of pieces.

ghost use Rattle.std.specs.Prelude.{◌≡◌, ℕ, All, IsPermutation, map};
ghost use Rattle.pod_piece.specs.state.Piece.{all_updated};
ghost use Rattle.piece_deques.specs.state.Rule.{AreNumbered};
ghost use Rattle.worker_results.specs.state.Done.{IsDone, weigh};

use piece_deques::{Deal, number_of};
use pod_piece::PodPiece;

/// The pieces of the round in any order, put in the order of their numbers.
pub fn in_order<D: Deal>(pieces: Vec<PodPiece>) -> Vec<PodPiece>
    requires numbered { AreNumbered D.all }
    requires each { (weight : ℕ → ℕ) → weigh weight pieces.items ≡ weigh weight D.all }
    requires right { All (IsDone D.all) pieces.items }
    ensures placed { result.items ≡ map all_updated D.all }
    ensures same { IsPermutation pieces.items result.items }
{
    let mut pieces = pieces;
    pieces.sort_unstable_by_key(|piece| number_of(piece));
    pieces
}
