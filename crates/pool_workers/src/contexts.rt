//! What each worker is lent.

ghost use Rattle.std.specs.Prelude.{◌≡◌, ◌<◌, ◌≤◌, ◌+◌, [], All, map, vec_len, vec_capacity};
ghost use Rattle.std.specs.List.{sum_by};
ghost use mathlib.Core.Option.{some};
ghost use lib.ListN.{get_elem?};
ghost use Rattle.crossbeam_deque.specs.Handles.{worker_view};
ghost use Rattle.observations.specs.rule.Limits.{most_pods};
ghost use Rattle.event_book.specs.state.Shares.{most_parts};
ghost use Rattle.worker_count.specs.rule.Limit.{most_workers};
ghost use Rattle.piece_deques.specs.state.Rule.{IsPieceDue};
ghost use Rattle.piece_deques.specs.state.Ends.{IsOwner, pushed_weight};
ghost use Rattle.pool_workers.specs.state.Permits.{owner_deque, permit_deque, pushed_to};
ghost use Rattle.pool_workers.specs.state.Contexts.{tag_of, context_deque, context_tag, IsLaid, AreLaid};
ghost use Rattle.pool_workers.specs.state.Slots.{IsHost, IsDealtSlot, AreBuffers};

use crate::context::WorkerContext;
use crate::deal::deal;
use crate::permits::permit_all;
use crate::slot::{DealtSlot, RoundBuffers};
use event_book::Shares;
use piece_deques::{Deal, Owner};
use pod_piece::PodPiece;
use std::sync::ledger::Ledger;

/// The context of the worker whose deque is at this place.
fn make_context<D: Deal, U: Ledger, E: Ledger, O: Ledger>(
    owner: Owner<D>,
    own: usize,
    dealt_slot: DealtSlot<D>,
    share: &mut Shares<U, E, O>,
) -> WorkerContext<D, U, E, O>
    requires owner { IsOwner owner }
    requires none { (worker_view owner).taken ≡ [] }
    requires own { get_elem? (map permit_deque dealt_slot.handles.items) own ≡ some (owner_deque owner) }
    requires room { pushed_to dealt_slot.handles.items ≤ vec_capacity dealt_slot.done }
    requires share { 1 < share.old.parts }
    ensures tag { context_tag result ≡ tag_of owner dealt_slot.handles.items 1 }
    ensures parts { share.new.parts + 1 ≡ share.old.parts }
    ensures totals { share.new.totals ≡ share.old.totals }
{
    let DealtSlot {
        handles,
        done,
        uncounted,
    } = dealt_slot;
    WorkerContext::new(owner, own, handles, done, uncounted, share.split())
}

/// A context for each deque, in their order.
fn make_contexts<D: Deal, U: Ledger, E: Ledger, O: Ledger>(
    owners: Vec<Owner<D>>,
    dealt_slots: Vec<DealtSlot<D>>,
    share: &mut Shares<U, E, O>,
    contexts: &mut Vec<WorkerContext<D, U, E, O>>,
)
    requires hosts { All (IsHost (vec_len owners)) owners.items }
    requires dealt_slots { All (IsDealtSlot (sum_by (pushed_weight (λ _. 1)) owners.items)
        (map owner_deque owners.items)) dealt_slots.items }
    requires len { vec_len dealt_slots ≡ vec_len owners }
    requires share { vec_len owners < share.old.parts }
    requires none { contexts.old.items ≡ [] }
    requires room { vec_len owners ≤ vec_capacity contexts.old }
    ensures len { vec_len contexts.new ≡ vec_len owners }
    ensures filled { map context_deque contexts.new.items ≡ map owner_deque owners.items }
    ensures laid { All (λ context. IsLaid (vec_len owners) (map owner_deque owners.items) (context_tag context))
        contexts.new.items }
    ensures parts { share.new.parts + vec_len owners ≡ share.old.parts }
    ensures totals { share.new.totals ≡ share.old.totals }
{
    let mut left = owners;
    let mut dealt_slots = dealt_slots;
    left.reverse();
    while let Some(owner) = left.pop() {
        let Some(dealt_slot) = dealt_slots.pop() else {
            unreachable!();
        };
        let own = contexts.len();
        let context = make_context(owner, own, dealt_slot, share);
        contexts.push_reserved(context);
    }
}

/// Deals the pieces, the permits and the share: a context for each worker. Doesn't allocate.
pub fn lay_out<D: Deal, U: Ledger, E: Ledger, O: Ledger>(
    buffers: RoundBuffers<D, U, E, O>,
    pieces: Vec<PodPiece>,
    share: &mut Shares<U, E, O>,
) -> Vec<WorkerContext<D, U, E, O>>
    requires few { vec_len pieces ≤ most_pods }
    requires due { All (IsPieceDue D.all) pieces.items }
    requires buffers { AreBuffers (vec_len pieces) buffers }
    requires some { 0 < vec_len buffers.owners }
    requires most { vec_len buffers.owners ≤ most_workers }
    requires share { share.old.parts ≡ most_parts }
    ensures len { vec_len result ≡ vec_len buffers.owners }
    ensures laid { AreLaid pieces.items (map context_tag result.items) }
    ensures parts { share.new.parts + vec_len buffers.owners ≡ most_parts }
    ensures totals { share.new.totals ≡ share.old.totals }
{
    let RoundBuffers {
        owners,
        slots,
        dealt_slots,
        contexts,
    } = buffers;
    let mut owners = owners;
    let mut dealt_slots = dealt_slots;
    let mut contexts = contexts;
    deal(&mut owners, pieces);
    permit_all(&mut owners, slots, &mut dealt_slots);
    make_contexts(owners, dealt_slots, share, &mut contexts);
    contexts
}
