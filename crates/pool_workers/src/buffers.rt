//! All the memory that dealing a round takes.

ghost use Rattle.std.specs.Prelude.{◌≡◌, ◌≤◌, ◌⊎◌, ℕ, [], All, IfOk, IfErr, IsErr, Ok, map, vec_len, vec_capacity};
ghost use Rattle.std.specs.List.{sum_by};
ghost use Rattle.crossbeam_deque.specs.Handles.{worker_deque, stealer_deque};
ghost use Rattle.observations.specs.rule.Limits.{most_pods};
ghost use Rattle.piece_deques.specs.state.Ends.{IsOwner, IsOpen, pushed_weight};
ghost use Rattle.pool_workers.specs.state.Permits.{IsInOrder};
ghost use Rattle.pool_workers.specs.state.Slots.{IsSlot, AreBuffers};

use crate::context::WorkerContext;
use crate::slot::{DealtSlot, RoundBuffers, WorkerSlot};
use piece_deques::{Deal, Owner, Thief, open};
use std::alloc::{AllocError, Global};
use std::sync::ledger::Ledger;

/// Empty deques.
fn open_all<D: Deal>(
    alloc: Global,
    room: usize,
    workers: usize,
) -> Result<Vec<Owner<D>>, AllocError>
    ensures opened { IfOk result (λ owners. All (IsOpen room 0) owners.items) }
    ensures len { IfOk result (λ owners. vec_len owners ≡ workers) }
    ensures none { IfOk result (λ owners. (weight : ℕ → ℕ) → sum_by (pushed_weight weight) owners.items ≡ 0) }
{
    let mut owners = Vec::with_capacity(alloc, workers)?;
    'opened: while owners.len() < workers {
        let owner = open(alloc, room)?;
        owners.push_reserved(owner);
    }
    Ok(owners)
}

/// The thieves' end of each deque, in their order.
fn stealers<D: Deal>(alloc: Global, owners: &Vec<Owner<D>>) -> Result<Vec<Thief<D>>, AllocError>
    requires { All IsOwner owners.now.items }
    ensures deques { IfOk result (λ thieves. map stealer_deque thieves.items ≡ map worker_deque owners.now.items) }
    ensures in_order { IfOk result (λ thieves. All IsInOrder thieves.items) }
{
    let mut thieves = Vec::with_capacity(alloc, owners.len())?;
    'stealers: while thieves.len() < owners.len() {
        let thief = owners[thieves.len()].stealer()?;
        thieves.push_reserved(thief);
    }
    Ok(thieves)
}

fn make_slot<D: Deal>(
    alloc: Global,
    room: usize,
    owners: &Vec<Owner<D>>,
) -> Result<WorkerSlot<D>, AllocError>
    requires { All IsOwner owners.now.items }
    ensures { IfOk result (IsSlot room (map worker_deque owners.now.items)) }
{
    let thieves = stealers(alloc, owners)?;
    let handles = Vec::with_capacity(alloc, thieves.len())?;
    let done = Vec::with_capacity(alloc, room)?;
    let uncounted = Vec::with_capacity(alloc, room)?;
    Ok(WorkerSlot {
        thieves,
        handles,
        done,
        uncounted,
    })
}

/// A slot for each deque.
fn make_slots<D: Deal>(
    alloc: Global,
    room: usize,
    owners: &Vec<Owner<D>>,
) -> Result<Vec<WorkerSlot<D>>, AllocError>
    requires { All IsOwner owners.now.items }
    ensures slots { IfOk result (λ slots. All (IsSlot room (map worker_deque owners.now.items)) slots.items) }
    ensures len { IfOk result (λ slots. vec_len slots ≡ vec_len owners.now) }
{
    let mut slots = Vec::with_capacity(alloc, owners.len())?;
    'made: while slots.len() < owners.len() {
        let slot = make_slot(alloc, room, owners)?;
        slots.push_reserved(slot);
    }
    Ok(slots)
}

/// Puts the buffers together, without an allocation: it fails just if one of its parts did.
fn assemble<D: Deal, U: Ledger, E: Ledger, O: Ledger>(
    owners: Vec<Owner<D>>,
    slots: Result<Vec<WorkerSlot<D>>, AllocError>,
    dealt_slots: Result<Vec<DealtSlot<D>>, AllocError>,
    contexts: Result<Vec<WorkerContext<D, U, E, O>>, AllocError>,
) -> Result<RoundBuffers<D, U, E, O>, AllocError>
    requires slots { IfOk slots (λ v. vec_len v ≡ vec_len owners) }
    requires dealt_slots { IfOk dealt_slots (λ v. (v.items ≡ []) × (vec_len owners ≤ vec_capacity v)) }
    requires contexts { IfOk contexts (λ v. (v.items ≡ []) × (vec_len owners ≤ vec_capacity v)) }
    ensures owners { IfOk result (λ buffers. buffers.owners ≡ owners) }
    ensures slots { IfOk result (λ buffers. slots ≡ Ok buffers.slots) }
    ensures refused { IfErr result (λ _. IsErr slots ⊎ (IsErr dealt_slots ⊎ IsErr contexts)) }
{
    let slots = slots?;
    let dealt_slots = dealt_slots?;
    let contexts = contexts?;
    Ok(RoundBuffers {
        owners,
        slots,
        dealt_slots,
        contexts,
    })
}

/// The deques and the room for a round of this many pieces and workers. Each worker has room for all pieces, once each.
pub fn make_buffers<D: Deal, U: Ledger, E: Ledger, O: Ledger>(
    alloc: Global,
    pieces: usize,
    workers: usize,
) -> Result<RoundBuffers<D, U, E, O>, AllocError>
    requires { pieces ≤ most_pods }
    ensures workers { IfOk result (λ buffers. vec_len buffers.owners ≡ workers) }
    ensures buffers { IfOk result (AreBuffers pieces) }
{
    let owners = open_all(alloc, pieces, workers)?;
    let slots = make_slots(alloc, pieces, &owners);
    let dealt_slots = Vec::with_capacity(alloc, workers);
    let contexts = Vec::with_capacity(alloc, workers);
    assemble(owners, slots, dealt_slots, contexts)
}
