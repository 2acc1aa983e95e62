//! The events of ticks.

ghost use Rattle.std.specs.Prelude.{◌≡◌, ◌<◌, ◌≤◌, ◌++◌, List, length, map, take, drop, slice_get, Some, OnOk};
ghost use Rattle.pod_piece.specs.state.Made.{MadeEvent, made_of, AreRoundEvents};
ghost use Rattle.event_list.specs.declared.event.Event.{Event as AnEvent};
ghost use Rattle.event_list.specs.declared.event.EventKind.TheVariants.{Pod};
ghost use Rattle.event_list.specs.rule.Events.{event, of_node, kind_of_choice, of_choice};
ghost use Rattle.event_list.specs.state.Tick.{AreMadeBy, AddsEvents, AreOfTicks, MomentsRise};
ghost use Rattle.event_list.specs.state.Tick.{events_of, events_by_pod, events_of_node, IsInOrder};

use crate::event::{Event, EventKind};
use eviction::Eviction;
use node_signals::NodeEvent;
use pod_piece::{MadeTick, PodPiece, piece_at};
use pod_state::PodEvent;
use std::alloc::{AllocError, Global};

/// The moment of a tick, and what the tick made of the node.
#[derive(Drop)]
pub struct TickEvents {
    /// The moment, in seconds.
    pub at: u64,
    /// The events of the node, in their order.
    pub node_events: Vec<NodeEvent>,
}

/// Adds the events of the pod with the number, at a moment in seconds.
fn add_events_at(
    events: &mut Vec<Event>,
    at: u64,
    number: usize,
    made: &[PodEvent],
) -> Result<(), AllocError>
    ensures { OnOk result (events.new.items ≡ events.old.items ++ map (λ e. event at (Pod number e)) made.now) }
{
    for event in made {
        events.push(Event {
            at,
            kind: EventKind::Pod {
                number,
                event: *event,
            },
        })?;
    }
    Ok(())
}

/// Adds the events that these ticks made of the pod with the number.
fn add_earlier_events(
    events: &mut Vec<Event>,
    number: usize,
    ticks: &[MadeTick],
) -> Result<(), AllocError>
    ensures { OnOk result (events.new.items ≡ events.old.items ++ events_of number (made_of ticks.now)) }
{
    for tick in ticks {
        add_events_at(events, tick.at, number, &tick.events)?;
    }
    Ok(())
}

/// Adds the events of the round of the pod with the number.
fn add_events_of_pod(
    events: &mut Vec<Event>,
    number: usize,
    piece: &PodPiece,
) -> Result<(), AllocError>
    ensures { OnOk result ((made : List MadeEvent) × AreRoundEvents piece.now made
        × (events.new.items ≡ events.old.items ++ events_of number made)) }
{
    let Some(at) = piece.last_at() else {
        return Ok(());
    };
    if piece.round_length() == 0 {
        return Ok(());
    }
    add_earlier_events(events, number, piece.earlier_events())?;
    add_events_at(events, at, number, piece.events())?;
    Ok(())
}

/// Adds the events of the rounds of these pods, by number.
fn add_events_of_pods(events: &mut Vec<Event>, pieces: &[PodPiece]) -> Result<(), AllocError>
    ensures { OnOk result ((made : List (List MadeEvent)) × AreMadeBy pieces.now made
        × (events.new.items ≡ events.old.items ++ events_by_pod 0 made)) }
{
    for number in 0..pieces.len() {
        add_events_of_pod(events, number, piece_at(pieces, number))?;
    }
    Ok(())
}

/// Adds the events of the node, at a moment in seconds.
fn add_node_events_at(
    events: &mut Vec<Event>,
    at: u64,
    node_events: &[NodeEvent],
) -> Result<(), AllocError>
    ensures { OnOk result (events.new.items ≡ events.old.items ++ of_node at node_events.now) }
{
    for event in node_events {
        events.push(Event {
            at,
            kind: EventKind::Node(*event),
        })?;
    }
    Ok(())
}

/// Adds the events of the node in these ticks.
fn add_events_of_node(events: &mut Vec<Event>, ticks: &[TickEvents]) -> Result<(), AllocError>
    ensures { OnOk result (events.new.items ≡ events.old.items ++ events_of_node ticks.now) }
{
    for tick in ticks {
        add_node_events_at(events, tick.at, &tick.node_events)?;
    }
    Ok(())
}

/// Sorts events by their moments; the events of one moment keep their order.
fn sort_by_moment(alloc: Global, events: &mut [Event]) -> Result<(), AllocError>
    ensures { OnOk result (IsInOrder events.old events.new) }
{
    // Stable: within a tick the order of the pods' numbers stays. (docs/decisions/rounds.md)
    events.sort_by_key(alloc, |event| event.at)
}

/// Sorts the events from this place on by their moments; the events of one moment keep their order.
fn sort_from(events: &mut Vec<Event>, place: usize) -> Result<(), AllocError>
    requires { place ≤ length events.old.items }
    ensures { OnOk result ((sorted : List AnEvent) × IsInOrder (drop place events.old.items) sorted
        × (events.new.items ≡ take place events.old.items ++ sorted)) }
{
    let alloc = *events.allocator();
    sort_by_moment(alloc, &mut events[place..])
}

/// Adds the events of these ticks, whose moments rise, tick after tick: the events that the rounds of these pods made
/// in the tick, by the pods' numbers, and the node's. Each tick of the rounds is one of these ticks. Returns `Err` if
/// an allocation fails; nothing is promised of the list then.
pub fn add_events(
    events: &mut Vec<Event>,
    pieces: &[PodPiece],
    ticks: &[TickEvents],
) -> Result<(), AllocError>
    requires rising { MomentsRise ticks.now }
    requires within { AreOfTicks ticks.now pieces.now }
    ensures { OnOk result (AddsEvents ticks.now pieces.now events.old.items events.new.items) }
{
    let place = events.len();
    add_events_of_pods(events, pieces)?;
    add_events_of_node(events, ticks)?;
    if ticks.len() > 1 {
        sort_from(events, place)?;
    }
    Ok(())
}

/// What a choice of the rules is: an eviction, or only a name if the trace reports whom the node evicted.
fn kind_of_choice(recorded: bool, choice: Eviction) -> EventKind
    ensures { result ≡ kind_of_choice recorded choice }
{
    if recorded {
        EventKind::Named(choice)
    } else {
        EventKind::Evicted(choice)
    }
}

/// Adds the event of the choice at the moment, in seconds, if there is one: an eviction, or only a name if the trace
/// reports whom the node evicted. Returns `Err` if an allocation fails; nothing is promised of the list then.
pub fn add_choice(
    events: &mut Vec<Event>,
    recorded: bool,
    at: u64,
    choice: Option<Eviction>,
) -> Result<(), AllocError>
    ensures { OnOk result (events.new.items ≡ events.old.items ++ of_choice recorded at choice) }
{
    if let Some(choice) = choice {
        events.push(Event {
            at,
            kind: kind_of_choice(recorded, choice),
        })?;
    }
    Ok(())
}
