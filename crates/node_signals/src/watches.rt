//! A node's thresholds over the samples of its signals.

ghost use Rattle.std.specs.Prelude.{◌≡◌, ◌↔◌, ◌<◌, ◌≤◌, ℕ, slice_get, IsTrue, IfSome, IsSomeAnd, List, [], ◌∷◌, ◌++◌};
ghost use Rattle.std.specs.Prelude.{Option, Some, None};
ghost use Rattle.quantity.specs.rule.Quantity.{greatest_quantity};
ghost use Rattle.signals.specs.declared.threshold.Threshold.{Threshold};
ghost use Rattle.thresholds.specs.rule.Samples.{Sample, sample as sample_of};
ghost use Rattle.node_config.specs.rule.EvictionConfig.{EvictionConfig};
ghost use Rattle.node_config.specs.state.EvictionConfig.{HasCapacity};
ghost use Rattle.observations.specs.declared.tick.TickObs.{TickObs};
ghost use Rattle.observations.specs.rule.Observations.{judged_of};
ghost use Rattle.node_signals.specs.declared.key.ThresholdKey.{ThresholdKey};
ghost use Rattle.node_signals.specs.rule.Keys.{serving_order};
ghost use Rattle.node_signals.specs.rule.Thresholds.{IsActiveOnNode, IsDueOnNode, IsEnough, IsReclaimed, Asks};
ghost use Rattle.node_signals.specs.rule.Thresholds.{IsServed};
ghost use Rattle.node_signals.specs.state.Node.{IsWatchOf, IsWatchAt, AreWatches};

use crate::key::{THRESHOLDS, ThresholdKey, key_at};
use node_config::EvictionConfig;
use observations::TickObs;
use quantity::Quantity;
use signals::Threshold;
use thresholds::Watch;

/// The watches of a node, in the serving order: one for each threshold that it has.
pub(crate) type Watches = [Option<Watch>; THRESHOLDS];

/// The watch at this place.
fn watch_at(watches: &Watches, place: usize) -> Option<Watch>
    requires { place < THRESHOLDS }
    ensures { slice_get watches.now place ≡ Some result }
{
    watches[place]
}

/// A quantity in thousandths, where there is one.
fn milli(value: Option<Quantity>) -> Option<u128>
    ensures value { result ≡ value }
    ensures within { IfSome result (λ v. v ≤ greatest_quantity) }
{
    Some(value?.milli())
}

/// The watch of a threshold before any sample.
fn first_watch(eviction: &EvictionConfig, key: ThresholdKey) -> Option<Watch>
    ensures { IsWatchAt eviction.now [] key result }
{
    match eviction.threshold(key.kind, key.signal) {
        Some(threshold) => Some(Watch::new(threshold, milli(eviction.capacity(key.signal)))),
        None => None,
    }
}

/// The watches of a node before any tick.
pub(crate) fn first_watches(eviction: &EvictionConfig) -> Watches
    ensures { AreWatches eviction.now [] result }
{
    let mut watches = [None; THRESHOLDS];
    for place in 0..THRESHOLDS {
        watches[place] = first_watch(eviction, key_at(place));
    }
    watches
}

/// The watch after one more sample.
fn sampled(watch: Option<Watch>, at: u64, value: Option<u128>) -> Option<Watch>
    ensures { (threshold : Option Threshold) (capacity : Option ℕ) (h : List Sample)
        → IsWatchOf threshold capacity h watch
        → IsWatchOf threshold capacity (h ++ sample_of at value ∷ []) result }
{
    let mut watch = watch?;
    watch.sample(at, value);
    Some(watch)
}

/// Each watch takes its signal's sample of the tick.
pub(crate) fn sample_all(watches: &mut Watches, tick: &TickObs)
    ensures { (eviction : EvictionConfig) (before : List TickObs)
        → AreWatches eviction before watches.old
        → AreWatches eviction (before ++ tick.now ∷ []) watches.new }
{
    for place in 0..THRESHOLDS {
        let value = milli(tick.signals.of(key_at(place).signal));
        watches[place] = sampled(watch_at(watches, place), tick.at, value);
    }
}

/// Whether the threshold at this place is active.
pub(crate) fn is_active(watches: &Watches, place: usize) -> bool
    requires { place < THRESHOLDS }
    ensures { (eviction : EvictionConfig) (ticks : List TickObs) (key : ThresholdKey)
        → slice_get serving_order place ≡ Some key
        → AreWatches eviction ticks watches.now
        → (IsTrue result ↔ IsActiveOnNode eviction ticks key) }
{
    match watch_at(watches, place) {
        Some(watch) => watch.active(),
        None => false,
    }
}

/// Whether the threshold at this place is due.
pub(crate) fn is_due(watches: &Watches, place: usize) -> bool
    requires { place < THRESHOLDS }
    ensures { (eviction : EvictionConfig) (ticks : List TickObs) (key : ThresholdKey)
        → slice_get serving_order place ≡ Some key
        → AreWatches eviction ticks watches.now
        → (IsTrue result ↔ IsDueOnNode eviction ticks key) }
{
    match watch_at(watches, place) {
        Some(watch) => watch.due(),
        None => false,
    }
}

/// Whether the value is not below the threshold's limit plus its reclaim.
fn is_enough(threshold: Threshold, capacity: Option<u128>, value: Option<u128>) -> bool
    requires capacity { HasCapacity capacity threshold }
    requires within { IfSome capacity (λ c. c ≤ greatest_quantity) }
    ensures { IsTrue result ↔ IsSomeAnd value (IsEnough capacity threshold) }
{
    match value {
        Some(value) => {
            threshold.limit.amount(capacity) + threshold.reclaim.amount(capacity) <= value
        }
        None => false,
    }
}

/// Whether the node has freed enough by itself for this threshold.
pub(crate) fn is_reclaimed(eviction: &EvictionConfig, key: ThresholdKey, tick: &TickObs) -> bool
    ensures { IsTrue result ↔ IsReclaimed eviction.now tick.now key }
{
    let Some(threshold) = eviction.threshold(key.kind, key.signal) else {
        return false;
    };
    let capacity = milli(eviction.capacity(key.signal));
    let freed = milli(tick.after_reclaim.of(key.signal));
    key.signal.is_of_file_system() && is_enough(threshold, capacity, freed)
}

/// Whether the threshold at this place asks for an eviction: the tick is a sync tick, the threshold is due, and the
/// node has not freed enough by itself.
fn asks(watches: &Watches, eviction: &EvictionConfig, tick: &TickObs, place: usize) -> bool
    requires { place < THRESHOLDS }
    ensures { (before : List TickObs) (key : ThresholdKey)
        → slice_get serving_order place ≡ Some key
        → AreWatches eviction.now (judged_of (before ++ tick.now ∷ [])) watches.now
        → (IsTrue result ↔ Asks eviction.now before tick.now key) }
{
    tick.judged && is_due(watches, place) && !is_reclaimed(eviction, key_at(place), tick)
}

/// The threshold that is acted on.
pub(crate) fn served(
    watches: &Watches,
    eviction: &EvictionConfig,
    tick: &TickObs,
) -> Option<ThresholdKey>
    ensures { (before : List TickObs)
        → AreWatches eviction.now (judged_of (before ++ tick.now ∷ [])) watches.now
        → IsServed eviction.now before tick.now result }
{
    for place in 0..THRESHOLDS {
        if asks(watches, eviction, tick, place) {
            return Some(key_at(place));
        }
    }
    None
}
