//! The deal.

ghost use Rattle.std.specs.Prelude.{◌≡◌, ◌<◌, ◌≤◌, ◌+◌, ◌%◌, ℕ, All, map, vec_len};
ghost use Rattle.std.specs.List.{sum_by};
ghost use Rattle.crossbeam_deque.specs.Handles.{worker_deque};
ghost use Rattle.observations.specs.rule.Limits.{most_pods};
ghost use Rattle.piece_deques.specs.state.Rule.{number_of, IsPieceDue};
ghost use Rattle.piece_deques.specs.state.Ends.{IsOpen, pushed_weight};
ghost use Rattle.worker_results.specs.state.Done.{weigh};
ghost use Rattle.pool_workers.specs.state.Dealing.{deal, pushed_of};

use piece_deques::{Deal, Owner, number_of, push};
use pod_piece::PodPiece;

/// The deque of a piece: its number modulo the deques.
fn deque_of(piece: &PodPiece, deques: usize) -> usize
    requires { 0 < deques }
    ensures is { result ≡ piece.now.number % deques }
    ensures within { result < deques }
{
    number_of(piece) % deques
}

/// Deals the pieces in their order: each goes to the deque of its number modulo the deques.
pub(crate) fn deal<D: Deal>(owners: &mut Vec<Owner<D>>, pieces: Vec<PodPiece>)
    requires some { 0 < vec_len owners.old }
    requires few { vec_len pieces ≤ most_pods }
    requires due { All (IsPieceDue D.all) pieces.items }
    requires opened { All (IsOpen (vec_len pieces) 0) owners.old.items }
    ensures deques { map worker_deque owners.new.items ≡ map worker_deque owners.old.items }
    ensures opened { All (IsOpen (vec_len pieces) (vec_len pieces)) owners.new.items }
    ensures dealt { map pushed_of owners.new.items
        ≡ deal (map pushed_of owners.old.items) (map number_of pieces.items) }
    ensures pushed { (weight : ℕ → ℕ) → sum_by (pushed_weight weight) owners.new.items
        ≡ sum_by (pushed_weight weight) owners.old.items + weigh weight pieces.items }
{
    let mut left = pieces;
    left.reverse();
    while let Some(piece) = left.pop() {
        let to = deque_of(&piece, owners.len());
        push(&mut owners[to], piece);
    }
}
