//! The permits at the deques.

ghost use Rattle.std.specs.Prelude.{◌≡◌, ◌<◌, ◌≤◌, ◌+◌, ℕ, [], All, map, vec_len, vec_capacity};
ghost use Rattle.crossbeam_deque.specs.Handles.{stealer_deque, worker_deque};
ghost use Rattle.worker_count.specs.rule.Limit.{most_workers};
ghost use Rattle.pool_workers.specs.state.Permits.{owner_deque, permit_deque};
ghost use Rattle.pool_workers.specs.state.Slots.{IsHost, IsRich, IsDealtSlot};

use crate::slot::{DealtSlot, WorkerSlot};
use piece_deques::{Deal, Owner, new_permit};
use worker_results::StealHandle;

/// A permit of each deque, in their order.
fn permit_slot<D: Deal>(owners: &mut Vec<Owner<D>>, slot: WorkerSlot<D>) -> DealtSlot<D>
    requires thieves { map stealer_deque slot.thieves.items ≡ map worker_deque owners.old.items }
    requires rich { All IsRich owners.old.items }
    ensures len { vec_len owners.new ≡ vec_len owners.old }
    ensures filled { map owner_deque owners.new.items ≡ map owner_deque owners.old.items }
    ensures hosts { (n : ℕ) → n < most_workers → All (IsHost n) owners.old.items
        → All (IsHost (n + 1)) owners.new.items }
    ensures permits { map permit_deque result.handles.items ≡ map owner_deque owners.old.items }
    ensures room { vec_capacity result.done ≡ vec_capacity slot.done }
{
    let WorkerSlot {
        thieves,
        handles,
        done,
        uncounted,
    } = slot;
    let mut thieves = thieves;
    let mut handles = handles;
    while let Some(thief) = thieves.pop() {
        let at = thieves.len();
        let permit = new_permit(&mut owners[at]);
        handles.push_reserved(StealHandle { thief, permit });
    }
    handles.reverse();
    DealtSlot {
        handles,
        done,
        uncounted,
    }
}

/// A permit of each deque for each slot.
pub(crate) fn permit_all<D: Deal>(
    owners: &mut Vec<Owner<D>>,
    slots: Vec<WorkerSlot<D>>,
    dealt_slots: &mut Vec<DealtSlot<D>>,
)
    requires few { vec_len slots ≤ most_workers }
    requires hosts { All (IsHost 0) owners.old.items }
    requires slots { All (λ slot. map stealer_deque slot.thieves.items ≡ map worker_deque owners.old.items)
        slots.items }
    requires none { dealt_slots.old.items ≡ [] }
    requires room { vec_len slots ≤ vec_capacity dealt_slots.old }
    ensures owners { vec_len owners.new ≡ vec_len owners.old }
    ensures filled { map owner_deque owners.new.items ≡ map owner_deque owners.old.items }
    ensures hosts { All (IsHost (vec_len slots)) owners.new.items }
    ensures dealt_slots { (room : ℕ) → All (λ slot. room ≤ vec_capacity slot.done) slots.items
        → All (IsDealtSlot room (map owner_deque owners.old.items)) dealt_slots.new.items }
    ensures len { vec_len dealt_slots.new ≡ vec_len slots }
{
    let mut slots = slots;
    while let Some(slot) = slots.pop() {
        let dealt_slot = permit_slot(owners, slot);
        dealt_slots.push_reserved(dealt_slot);
    }
}
