//! How many updates, events and orders the pods of a node came to.

ghost use Rattle.std.specs.Prelude.{◌≡◌, ◌≤◌, length};
ghost use Rattle.std.specs.List.{filter};
ghost use Rattle.pod_piece.specs.state.Made.{made_of};
ghost use Rattle.totals.specs.rule.Totals.{is_order};
ghost use Rattle.totals.specs.state.Totals.{entry_of, IsEntryOf, one_update};
ghost use Rattle.totals.specs.state.Limits.{greatest_total, IsLow, IsLowAddition};
ghost use Rattle.totals.specs.state.Rounds.{entry_of_made, IsAdditionOf};

use containers::PodEventKind;
use pod_piece::{MadeTick, PodPiece};
use pod_state::PodEvent;

/// What is counted over all ticks of a node.
#[derive(Clone, Copy, Debug, PartialEq, Eq)]
pub struct Totals {
    /// The updates of pods: one for each pod and tick that shows it.
    pub updates: u64,
    /// The events of pods and containers.
    pub events: u64,
    /// Those of them that order a kubelet to kill or to restart a container.
    pub orders: u64,
}

/// What a pod's tick adds to the totals, beside one update.
#[derive(Clone, Copy, Debug, PartialEq, Eq)]
pub struct Entry {
    /// Its events.
    pub events: u64,
    /// Those that order a kubelet to kill or to restart a container.
    pub orders: u64,
}

/// Whether it orders a kubelet to kill or to restart a container.
fn is_order(event: &PodEvent) -> bool
    ensures { result ≡ is_order event.now }
{
    matches!(
        event.kind,
        PodEventKind::Kill { .. } | PodEventKind::Restart { .. }
    )
}

/// How many of these order a kubelet to kill or to restart a container.
fn count_orders(events: &[PodEvent]) -> u64
    ensures { result ≡ length (filter is_order events.now) }
{
    let mut count = 0;
    for event in events {
        if is_order(event) {
            count += 1;
        }
    }
    count
}

/// The entry of these ticks together.
fn entry_of_ticks(ticks: &[MadeTick]) -> Entry
    requires { length (made_of ticks.now) ≤ greatest_total }
    ensures { result ≡ entry_of_made (made_of ticks.now) }
{
    let mut events = 0;
    let mut orders = 0;
    for tick in ticks {
        let entry = Entry::of(&tick.events);
        events += entry.events;
        orders += entry.orders;
    }
    Entry { events, orders }
}

impl Totals {
    /// Those of one update with this entry.
    pub fn of_update(entry: Entry) -> Totals
        ensures { result ≡ one_update entry }
    {
        Totals {
            updates: 1,
            events: entry.events,
            orders: entry.orders,
        }
    }

    /// What the present round of a pod adds: its updates, their events, and the orders among them.
    pub fn of_round(piece: &PodPiece) -> Totals
        ensures addition { IsAdditionOf piece.now result }
        ensures low { IsLowAddition result }
    {
        // For the proof alone: a pod has few containers, so an update of it makes few events.
        let _containers = piece.pod().containers.as_slice();
        let updates = piece.round_length() as u64;
        if updates == 0 {
            return Totals {
                updates: 0,
                events: 0,
                orders: 0,
            };
        }
        let earlier = entry_of_ticks(piece.earlier_events());
        let last = Entry::of(piece.events());
        Totals {
            updates,
            events: earlier.events + last.events,
            orders: earlier.orders + last.orders,
        }
    }
}

impl Entry {
    /// The entry of a tick with these events.
    pub fn of(events: &[PodEvent]) -> Entry
        ensures { result ≡ entry_of events.now }
    {
        Entry {
            events: events.len() as u64,
            orders: count_orders(events),
        }
    }

    /// The entry of a pod's last update.
    pub fn last_of(piece: &PodPiece) -> Entry
        ensures entry { IsEntryOf piece.now result }
        ensures low { IsLow result }
    {
        // For the proof alone: a pod has few containers, so an update of it makes few events.
        let _containers = piece.pod().containers.as_slice();
        Entry::of(piece.events())
    }
}
