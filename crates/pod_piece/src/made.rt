//! The events of a pod's ticks.

ghost use Rattle.std.specs.Prelude.{◌≡◌, ◌<◌, ◌≤◌, ◌-◌, ◌++◌, [], false, length, slice_get, Some, vec_len};
ghost use Rattle.std.specs.Prelude.{vec_capacity};
ghost use Rattle.std.specs.Prelude.{IsTrue, OnOk};
ghost use Rattle.observations.specs.rule.Pods.{PodObs as APodObs};
ghost use Rattle.pod_piece.specs.state.Piece.{begun_with};
ghost use Rattle.pod_piece.specs.state.Made.{made_at, made_of};

use lists::ChunkedList;
use observations::PodObs;
use pod_state::PodEvent;
use std::alloc::AllocError;

/// The events of one tick of a pod, as that tick made them.
#[derive(Drop)]
pub struct MadeTick {
    /// The tick's moment, in seconds.
    pub at: u64,
    /// Its events, in their order.
    pub events: Vec<PodEvent>,
}

/// Where the round of a piece begins that gets one more tick after so many: a new one, without earlier events, unless
/// some ticks wait.
pub(crate) fn begin_round(
    waiting: usize,
    handed: usize,
    begun: usize,
    earlier: &mut Vec<MadeTick>,
) -> usize
    ensures begun { result ≡ begun_with waiting handed begun }
    ensures none { waiting ≡ 0 → earlier.new.items ≡ [] }
    ensures same { (waiting ≡ 0 → ⊥) → earlier.new.items ≡ earlier.old.items }
{
    if waiting == 0 {
        earlier.clear();
        return handed;
    }
    begun
}

/// Makes room for the events of one tick more, where a round goes on.
pub(crate) fn make_room(earlier: &mut Vec<MadeTick>, goes_on: bool) -> Result<(), AllocError>
    ensures same { earlier.new.items ≡ earlier.old.items }
    ensures room { OnOk result (IsTrue goes_on → vec_len earlier.new < vec_capacity earlier.new) }
{
    if goes_on {
        earlier.try_reserve(1)?;
    }
    Ok(())
}

/// Adds the events of a tick after those of the earlier ticks, for which there is room. Without events there is nothing
/// to add.
fn add_tick(earlier: &mut Vec<MadeTick>, at: u64, events: Vec<PodEvent>)
    requires { vec_len earlier.old < vec_capacity earlier.old }
    ensures { made_of earlier.new.items ≡ made_of earlier.old.items ++ made_at at events.items }
{
    if !events.is_empty() {
        earlier.push_reserved(MadeTick { at, events });
    }
}

/// If a round goes on, the events of the tick before the place go after those of the ticks before it.
pub(crate) fn move_on(
    earlier: &mut Vec<MadeTick>,
    goes_on: bool,
    history: &ChunkedList<PodObs>,
    place: usize,
    events: Vec<PodEvent>,
)
    requires place { place ≤ length history.now }
    requires behind { IsTrue goes_on → 0 < place }
    requires room { IsTrue goes_on → vec_len earlier.old < vec_capacity earlier.old }
    ensures moved { IsTrue goes_on → (last : APodObs) → slice_get history.now (place - 1) ≡ Some last
        → made_of earlier.new.items ≡ made_of earlier.old.items ++ made_at last.at events.items }
    ensures same { goes_on ≡ false → earlier.new.items ≡ earlier.old.items }
{
    if goes_on {
        add_tick(earlier, history.at(place - 1).at(), events);
    }
}
