//! What an owner and its thieves do with a deque.

ghost use Rattle.std.specs.Prelude.{◌≡◌, ◌<◌, ◌≤◌, ◌+◌, ◌-◌, ◌^◌, [], ◌∷◌, ◌++◌, IfOk, IfSome, IfNone};
ghost use Rattle.crossbeam_deque.specs.Handles.{view, IsPassOf, SameWorker, stealer_deque, stealer_flavor};
ghost use Rattle.crossbeam_deque.specs.Handles.{worker_capacity, worker_deque, worker_index, worker_view};
ghost use Rattle.piece_deques.specs.state.Rule.{all_parts, tally, IsPieceDue, Took, IsEmptied, FoundEmpty, IsBounded};
ghost use Rattle.piece_deques.specs.state.Ends.{IsOwner};

use crate::rule::{Cut, Deal, Dealing, Few, Popped, Pushed, Stolen, Tally};
use crossbeam_deque::{Pass, Steal, Stealer, Worker};
use pod_piece::PodPiece;
use std::alloc::{AllocError, Global};
use std::sync::Wait;

/// The owner's end of a deque.
pub type Owner<D> = Worker<PodPiece, Global, Tally, Dealing<D>>;

/// The end of a deque from which a thief takes pieces, with a permit of the deque.
pub type Thief<D> = Stealer<PodPiece, Global, Tally, Dealing<D>>;

/// The right to take pieces from a deque, which keeps count of those that it has taken. It takes no room at run time.
pub type Permit = Pass<PodPiece, Tally>;

/// The number of a piece.
pub fn number_of(piece: &PodPiece) -> usize
    ensures { result ≡ piece.now.number }
{
    piece.status().number
}

/// An empty deque, first in first out, with room for this many pieces.
pub fn open<D: Deal>(alloc: Global, room: usize) -> Result<Owner<D>, AllocError>
    ensures owner { IfOk result IsOwner }
    ensures room { IfOk result (λ owner. room ≤ worker_capacity owner) }
    ensures empty { IfOk result (λ owner. worker_index owner ≡ 0) }
    ensures view { IfOk result (λ owner. worker_view owner ≡ tally all_parts [] []) }
{
    Owner::fifo_as(alloc, room)
}

/// Pushes a piece to a deque that has room for it and has no permits.
pub fn push<D: Deal>(owner: &mut Owner<D>, piece: PodPiece)
    requires due { IsPieceDue D.all piece }
    requires alone { (worker_view owner.old).parts ≡ all_parts }
    requires room { worker_index owner.old < worker_capacity owner.old }
    requires few { worker_index owner.old < 2 ^ 62 }
    ensures same { SameWorker owner.old owner.new }
    ensures index { worker_index owner.new ≡ worker_index owner.old + 1 }
    ensures pushed { worker_view owner.new ≡ tally (worker_view owner.old).parts
        ((worker_view owner.old).pushed ++ piece.number ∷ []) (worker_view owner.old).taken }
{
    match owner.push_as::<Pushed>(piece) {
        Ok(()) => {}
        Err(_) => unreachable!(),
    }
}

/// A permit of the deque.
pub fn new_permit<D: Deal>(owner: &mut Owner<D>) -> Permit
    requires { 1 < (worker_view owner.old).parts }
    ensures same { SameWorker owner.old owner.new }
    ensures fits { IsPassOf (worker_deque owner.old) result }
    ensures owner { worker_view owner.new ≡ tally ((worker_view owner.old).parts - 1)
        (worker_view owner.old).pushed (worker_view owner.old).taken }
    ensures permit { view result ≡ tally 1 (worker_view owner.old).pushed [] }
{
    owner.another::<Cut>()
}

/// Takes a permit of the deque back.
pub fn return_permit<D: Deal>(owner: &mut Owner<D>, permit: Permit)
    requires fits { IsPassOf (worker_deque owner.old) permit }
    requires some { 0 < (worker_view owner.old).parts }
    ensures same { SameWorker owner.old owner.new }
    ensures bounded { IsBounded (worker_view owner.new) }
    ensures owner { worker_view owner.new ≡ tally ((worker_view owner.old).parts + (view permit).parts)
        (worker_view owner.old).pushed ((worker_view owner.old).taken ++ (view permit).taken) }
{
    owner.absorb::<Cut>(permit);
    owner.len_as::<Few>();
}

/// The first piece of the deque, for its owner. None where it found no piece in it.
pub fn pop<D: Deal>(owner: &mut Owner<D>) -> Option<PodPiece>
    requires { IsOwner owner.old }
    ensures same { SameWorker owner.old owner.new }
    ensures none { IfNone result (worker_view owner.new ≡ worker_view owner.old) }
    ensures emptied { IfNone result (IsEmptied (worker_view owner.old)) }
    ensures found { IfNone result (FoundEmpty D.all (worker_view owner.old)) }
    ensures due { IfSome result (IsPieceDue D.all) }
    ensures took { IfSome result (λ piece. Took D.all (worker_view owner.old) (piece ∷ []) (worker_view owner.new)) }
{
    owner.pop_as::<Popped<D>>()
}

/// The first piece of a deque that is first in first out, for a thief. None where it found no piece in it: where
/// another took a piece in between, it tries again.
pub fn steal<D: Deal, R: Wait>(rt: &R, thief: &Thief<D>, permit: &mut Permit) -> Option<PodPiece>
    requires in_order { stealer_flavor thief.now ≡ 0 }
    requires fits { IsPassOf (stealer_deque thief.now) permit.old }
    requires some { 0 < (view permit.old).parts }
    ensures same { IsPassOf (stealer_deque thief.now) permit.new }
    ensures none { IfNone result (view permit.new ≡ view permit.old) }
    ensures found { IfNone result (FoundEmpty D.all (view permit.old)) }
    ensures due { IfSome result (IsPieceDue D.all) }
    ensures took { IfSome result (λ piece. Took D.all (view permit.old) (piece ∷ []) (view permit.new)) }
{
    for _ in rt.forever() {
        match thief.steal_as::<Stolen<D>>(permit) {
            Steal::Success(piece) => return Some(piece),
            Steal::Empty => return None,
            Steal::Retry => {}
        }
    }
    unreachable!()
}
