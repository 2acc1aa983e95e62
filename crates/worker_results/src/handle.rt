//! A worker's way to one deque.

ghost use Rattle.std.specs.Prelude.{◌≡◌, ◌≤◌, [], ◌∷◌, ◌++◌, length, IfNone, IfSome};
ghost use Rattle.crossbeam_deque.specs.Handles.{view, IsPassOf, stealer_deque, stealer_flavor};
ghost use Rattle.piece_deques.specs.state.Rule.{IsPieceDue, FoundEmpty};

use piece_deques::{Deal, Permit, Thief, steal};
use pod_piece::PodPiece;
use std::sync::Wait;

/// The thieves' end of a first in first out deque, with a permit of that deque: one part of the right to know the
/// deque, by which no more pieces were taken than were pushed.
#[derive(Drop)]
pub struct StealHandle<D: Deal> {
    pub thief: Thief<D>,
    pub permit: Permit,
    pub ghost in_order: { stealer_flavor thief ≡ 0 },
    pub ghost fits: { IsPassOf (stealer_deque thief) permit },
    pub ghost one: { (view permit).parts ≡ 1 },
    pub ghost few: { length (view permit).taken ≤ length (view permit).pushed },
}

impl<D: Deal> StealHandle<D> {
    /// Takes the first piece of the deque. None if it found no piece in it.
    pub fn take<R: Wait>(&mut self, rt: &R) -> Option<PodPiece>
        ensures deque { stealer_deque self.new.thief ≡ stealer_deque self.old.thief }
        ensures pushed { (view self.new.permit).pushed ≡ (view self.old.permit).pushed }
        ensures none { IfNone result ((view self.new.permit).taken ≡ (view self.old.permit).taken) }
        ensures found { IfNone result (FoundEmpty D.all (view self.new.permit)) }
        ensures due { IfSome result (IsPieceDue D.all) }
        ensures taken { IfSome result (λ piece.
            (view self.new.permit).taken ≡ (view self.old.permit).taken ++ piece.number ∷ []) }
    {
        steal(rt, &self.thief, &mut self.permit)
    }
}
