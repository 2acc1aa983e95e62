//! What is made ready before a piece is dealt.

ghost use Rattle.std.specs.Prelude.{◌≡◌, ◌≤◌, ℕ, [], All, vec_len, vec_capacity};
ghost use Rattle.pool_workers.specs.state.Permits.{taken_by, IsInOrder};

use crate::context::WorkerContext;
use piece_deques::{Deal, Owner, Thief};
use pod_piece::PodPiece;
use std::sync::ledger::Ledger;
use worker_results::StealHandle;

/// What a worker will need in addition to its deque: the thieves' end of each deque, and room.
#[derive(Drop)]
pub(crate) struct WorkerSlot<D: Deal> {
    pub(crate) thieves: Vec<Thief<D>>,
    pub(crate) handles: Vec<StealHandle<D>>,
    pub(crate) done: Vec<PodPiece>,
    pub(crate) uncounted: Vec<PodPiece>,
    pub ghost in_order: { All IsInOrder thieves.items },
    pub ghost none: { handles.items ≡ [] },
    pub ghost empty: { done.items ≡ [] },
    pub ghost empty_uncounted: { uncounted.items ≡ [] },
    pub ghost room: { vec_len thieves ≤ vec_capacity handles },
    pub ghost room_uncounted: { vec_capacity uncounted ≡ vec_capacity done },
}

/// What a worker begins with, with a permit of each deque, by which nothing was taken yet.
#[derive(Drop)]
pub(crate) struct DealtSlot<D: Deal> {
    pub(crate) handles: Vec<StealHandle<D>>,
    pub(crate) done: Vec<PodPiece>,
    pub(crate) uncounted: Vec<PodPiece>,
    pub ghost fresh: { (weight : ℕ → ℕ) → taken_by weight handles.items ≡ 0 },
    pub ghost empty: { done.items ≡ [] },
    pub ghost empty_uncounted: { uncounted.items ≡ [] },
    pub ghost room_uncounted: { vec_capacity uncounted ≡ vec_capacity done },
}

/// The deques and slots of a round, and room for what is made of them.
#[derive(Drop)]
pub struct RoundBuffers<D: Deal, U: Ledger, E: Ledger, O: Ledger> {
    pub(crate) owners: Vec<Owner<D>>,
    pub(crate) slots: Vec<WorkerSlot<D>>,
    pub(crate) dealt_slots: Vec<DealtSlot<D>>,
    pub(crate) contexts: Vec<WorkerContext<D, U, E, O>>,
    pub ghost none: { dealt_slots.items ≡ [] },
    pub ghost empty: { contexts.items ≡ [] },
    pub ghost as_many: { vec_len slots ≡ vec_len owners },
    pub ghost room_dealt_slots: { vec_len owners ≤ vec_capacity dealt_slots },
    pub ghost room: { vec_len owners ≤ vec_capacity contexts },
}
