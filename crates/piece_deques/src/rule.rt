//! The rule of a deque of pieces.

use crossbeam_deque::protocol::{Join, Lesson, Outcome, Protocol, Split};
use pod_piece::PodPiece;
use std::collections::LinkedList;
use std::marker::{Brand, PhantomData};

/// Which pieces are dealt. A round of workers picks it.
pub trait Deal {
    ghost use Rattle.std.specs.Prelude.{Bool, List};
    ghost use Rattle.pod_piece.specs.rule.Piece.{Piece};

    ghost all: { List Piece };

    // Whether an update was made that leaves this piece, or was tried, and memory was refused.
    ghost left: { Piece → Bool → Bool };
}

impl Deal for Brand {
    ghost use Rattle.std.specs.Prelude.{[], true};

    ghost all = { [] };

    ghost left = { λ _ _. true };
}

/// What a pass of a deque has seen: its parts of the right to know the whole deque, the numbers of the pieces that were
/// pushed, and those that it has taken. No value of it is made.
pub struct Tally {
    pub parts: u64,
    pub pushed: LinkedList<u64>,
    pub taken: LinkedList<u64>,
}

/// The protocol of a deque of such pieces.
pub struct Dealing<D> {
    of: PhantomData<D>,
}

impl<D: Deal> Protocol<PodPiece, Tally> for Dealing<D> {
    ghost use Rattle.std.specs.Prelude.{[]};
    ghost use Rattle.piece_deques.specs.state.Rule.{all_parts, tally, IsDealt};

    ghost holds = { IsDealt D.all };

    ghost first = { tally all_parts [] [] };

    ghost guest = { tally 0 [] [] };
}

/// A pass gives one of its parts away, or takes another pass in.
pub(crate) struct Cut;

impl Split<Tally> for Cut {
    ghost use Rattle.std.specs.Prelude.{[], ◌-◌};
    ghost use Rattle.piece_deques.specs.state.Rule.{tally};

    ghost left = { λ v. tally (v.parts - 1) v.pushed v.taken };

    ghost right = { λ v. tally 1 v.pushed [] };
}

impl Join<Tally> for Cut {
    ghost use Rattle.std.specs.Prelude.{[], ◌+◌, ◌++◌};
    ghost use Rattle.piece_deques.specs.state.Rule.{tally};

    ghost both = { λ v w. tally (v.parts + w.parts) v.pushed (v.taken ++ w.taken) };

    ghost spent = { tally 0 [] [] };
}

/// What becomes of the tally where a deque's owner pushes pieces.
pub(crate) struct Pushed;

impl Outcome<PodPiece, Tally> for Pushed {
    ghost use Rattle.std.specs.Prelude.{◌≡◌, ◌++◌, map};
    ghost use Rattle.piece_deques.specs.state.Rule.{number_of, tally};

    ghost then = { λ v pieces w. w ≡ tally v.parts (v.pushed ++ map number_of pieces) v.taken };
}

/// The owner took pieces, or found none.
pub(crate) struct Popped<D> {
    of: PhantomData<D>,
}

impl<D: Deal> Outcome<PodPiece, Tally> for Popped<D> {
    ghost use Rattle.piece_deques.specs.state.Rule.{Took, IsEmptied, FoundEmpty};

    ghost then = { Took D.all };

    ghost empty = { λ v. IsEmptied v × FoundEmpty D.all v };
}

/// A thief took pieces, or found none.
pub(crate) struct Stolen<D> {
    of: PhantomData<D>,
}

impl<D: Deal> Outcome<PodPiece, Tally> for Stolen<D> {
    ghost use Rattle.piece_deques.specs.state.Rule.{Took, FoundEmpty};

    ghost then = { Took D.all };

    ghost empty = { FoundEmpty D.all };
}

/// No pass has taken more than was pushed.
pub(crate) struct Few;

impl Lesson<PodPiece, Tally> for Few {
    ghost use Rattle.piece_deques.specs.state.Rule.{IsBounded};

    ghost fact = { λ v items. IsBounded v };
}
