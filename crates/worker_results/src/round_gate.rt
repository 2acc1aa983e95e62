//! The gate of a round.

ghost use Rattle.std.specs.Prelude.{◌≡◌};

use piece_deques::Deal;
use pod_piece::Gate;
use std::marker::PhantomData;

/// The gate that makes the updates of a round. By its type what is known of the pieces of the round is what this gate
/// has made of them.
#[derive(Drop)]
pub struct RoundGate<'g, D: Deal, G: Gate> {
    pub gate: &'g G,
    pub of: PhantomData<D>,
    pub ghost known: { D.left ≡ G.left gate.now },
}
