//! The events of a node in a tick.

ghost use Rattle.std.specs.Prelude.{◌≡◌, ◌<◌, ◌++◌, ◌∷◌, [], ℕ, List, slice_get, Some, OnOk};
ghost use Rattle.histories.specs.rule.TheOne.{IsTheOne};
ghost use Rattle.node_config.specs.rule.EvictionConfig.{EvictionConfig};
ghost use Rattle.observations.specs.declared.tick.TickObs.{TickObs};
ghost use Rattle.observations.specs.rule.Observations.{judged_of};
ghost use Rattle.node_signals.specs.declared.key.ThresholdKey.{ThresholdKey};
ghost use Rattle.node_signals.specs.rule.Keys.{serving_order};
ghost use Rattle.node_signals.specs.rule.Conditions.{conditions};
ghost use Rattle.node_signals.specs.rule.Events.{ChangesThreshold, ChangesCondition, Reclaims, as_list};
ghost use Rattle.node_signals.specs.state.Events.{Adds};
ghost use Rattle.node_signals.specs.state.Node.{AreWatches, ArePressures};

use crate::condition::NodeCondition;
use crate::event::NodeEvent;
use crate::key::{THRESHOLDS, key_at};
use crate::pressures::Pressures;
use crate::watches::{Watches, is_active, is_due, is_reclaimed};
use node_config::EvictionConfig;
use observations::TickObs;
use std::alloc::AllocError;

/// Adds an event, if there is one.
fn add(events: &mut Vec<NodeEvent>, event: Option<NodeEvent>) -> Result<(), AllocError>
    ensures { OnOk result (events.new.items ≡ events.old.items ++ as_list event) }
{
    if let Some(event) = event {
        events.push(event)?;
    }
    Ok(())
}

/// Whether the threshold at this place became active or was cleared, by the watches before and after
/// the tick.
fn threshold_event(old: &Watches, new: &Watches, place: usize) -> Option<NodeEvent>
    requires { place < THRESHOLDS }
    ensures { (eviction : EvictionConfig) (before : List TickObs) (tick : TickObs) (key : ThresholdKey)
        → slice_get serving_order place ≡ Some key
        → AreWatches eviction (judged_of before) old.now
        → AreWatches eviction (judged_of (before ++ tick ∷ [])) new.now
        → IsTheOne (ChangesThreshold eviction before tick key) result }
{
    let key = key_at(place);
    let active = is_active(new, place);
    (active != is_active(old, place)).then_some(NodeEvent::Threshold { key, active })
}

/// Adds an event for each threshold that became active or was cleared.
pub(crate) fn add_threshold_events(
    events: &mut Vec<NodeEvent>,
    old: &Watches,
    new: &Watches,
) -> Result<(), AllocError>
    ensures { (eviction : EvictionConfig) (before : List TickObs) (tick : TickObs)
        → AreWatches eviction (judged_of before) old.now
        → AreWatches eviction (judged_of (before ++ tick ∷ [])) new.now
        → OnOk result (Adds (ChangesThreshold eviction before tick) serving_order events.old.items events.new.items) }
{
    for place in 0..THRESHOLDS {
        add(events, threshold_event(old, new, place))?;
    }
    Ok(())
}

/// Whether the condition became true or is no longer, by the pressures before and after the tick.
fn condition_event(old: &Pressures, new: &Pressures, condition: NodeCondition) -> Option<NodeEvent>
    ensures { (eviction : EvictionConfig) (period : ℕ) (before : List TickObs) (tick : TickObs)
        → ArePressures eviction period (judged_of before) old.now
        → ArePressures eviction period (judged_of (before ++ tick ∷ [])) new.now
        → IsTheOne (ChangesCondition eviction period before tick condition) result }
{
    let value = new.of(condition).is_true();
    (value != old.of(condition).is_true()).then_some(NodeEvent::Pressure { condition, value })
}

/// Adds an event for each condition that became true or is no longer.
pub(crate) fn add_condition_events(
    events: &mut Vec<NodeEvent>,
    old: &Pressures,
    new: &Pressures,
) -> Result<(), AllocError>
    ensures { (eviction : EvictionConfig) (period : ℕ) (before : List TickObs) (tick : TickObs)
        → ArePressures eviction period (judged_of before) old.now
        → ArePressures eviction period (judged_of (before ++ tick ∷ [])) new.now
        → OnOk result
        (Adds (ChangesCondition eviction period before tick) conditions events.old.items events.new.items) }
{
    add(
        events,
        condition_event(old, new, NodeCondition::MemoryPressure),
    )?;
    add(
        events,
        condition_event(old, new, NodeCondition::DiskPressure),
    )?;
    add(
        events,
        condition_event(old, new, NodeCondition::PidPressure),
    )?;
    Ok(())
}

/// Whether the tick is a sync tick, and the threshold at this place is due and the node has freed enough by itself.
fn reclaim_event(
    watches: &Watches,
    eviction: &EvictionConfig,
    tick: &TickObs,
    place: usize,
) -> Option<NodeEvent>
    requires { place < THRESHOLDS }
    ensures { (before : List TickObs) (key : ThresholdKey)
        → slice_get serving_order place ≡ Some key
        → AreWatches eviction.now (judged_of (before ++ tick.now ∷ [])) watches.now
        → IsTheOne (Reclaims eviction.now before tick.now key) result }
{
    let key = key_at(place);
    if tick.judged && is_due(watches, place) && is_reclaimed(eviction, key, tick) {
        Some(NodeEvent::Reclaim { key })
    } else {
        None
    }
}

/// Adds an event for each threshold that is due and reclaimed.
pub(crate) fn add_reclaim_events(
    events: &mut Vec<NodeEvent>,
    watches: &Watches,
    eviction: &EvictionConfig,
    tick: &TickObs,
) -> Result<(), AllocError>
    ensures { (before : List TickObs)
        → AreWatches eviction.now (judged_of (before ++ tick.now ∷ [])) watches.now
        → OnOk result (Adds (Reclaims eviction.now before tick.now) serving_order events.old.items events.new.items) }
{
    for place in 0..THRESHOLDS {
        add(events, reclaim_event(watches, eviction, tick, place))?;
    }
    Ok(())
}
