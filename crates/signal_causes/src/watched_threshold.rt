//! A threshold with what the causes of its events need of the past.

ghost use Rattle.std.specs.Prelude.{◌≡◌, ◌≤◌, ℕ, List, [], ◌∷◌, ◌++◌, Option, Some, None, IfSome, IsTrue, if◌then◌else◌};
ghost use Rattle.std.specs.Option.{option_or};
ghost use Rattle.quantity.specs.rule.Quantity.{greatest_quantity};
ghost use Rattle.quantity.specs.state.Limit.{HasItsCapacity};
ghost use Rattle.signals.specs.declared.threshold.Threshold.{Threshold as AThreshold};
ghost use Rattle.thresholds.specs.rule.Samples.{Sample, sample as sample_of};
ghost use Rattle.signal_causes.specs.rule.Stretches.{IsDueSince};
ghost use Rattle.signal_causes.specs.state.Watched.{IsWatchedOf, IsThresholdActiveSince};

use signals::Threshold;
use thresholds::Watch;

/// One eviction threshold over the samples of its signal, with the moments since which it has been active and due.
#[derive(Clone, Copy, Debug, PartialEq, Eq)]
pub struct WatchedThreshold {
    watch: Watch,
    active_since: Option<u64>,
    due_since: Option<u64>,
}

impl WatchedThreshold {
    /// A threshold without any sample so far. `capacity` is that of the signal, in thousandths.
    pub fn new(threshold: Threshold, capacity: Option<u128>) -> WatchedThreshold
        requires limit { HasItsCapacity capacity threshold.limit }
        requires reclaim { HasItsCapacity capacity threshold.reclaim }
        requires capacity { IfSome capacity (λ c. c ≤ greatest_quantity) }
        ensures { IsWatchedOf threshold capacity [] result }
    {
        WatchedThreshold {
            watch: Watch::new(threshold, capacity),
            active_since: None,
            due_since: None,
        }
    }

    /// A sample comes, of the moment `at`, in seconds, with the signal's value in thousandths, if it has one. Answers
    /// since when the threshold had been active before it.
    pub fn sample(&mut self, at: u64, value: Option<u128>) -> Option<u64>
        ensures state { (threshold : AThreshold) (capacity : Option ℕ) (h : List Sample)
            → IsWatchedOf threshold capacity h self.old
            → IsWatchedOf threshold capacity (h ++ sample_of at value ∷ []) self.new }
        ensures before { (threshold : AThreshold) (capacity : Option ℕ) (h : List Sample)
            → IsWatchedOf threshold capacity h self.old → IsThresholdActiveSince threshold capacity h result }
    {
        let before = self.active_since;
        self.watch.sample(at, value);
        self.active_since = since_after(self.watch.active(), before, at);
        self.due_since = since_after(self.watch.due(), self.due_since, at);
        before
    }

    /// Since when the threshold has been active without a break, in seconds; none if it isn't active.
    pub fn active_since(&self) -> Option<u64>
        ensures { (threshold : AThreshold) (capacity : Option ℕ) (h : List Sample)
            → IsWatchedOf threshold capacity h self.now → IsThresholdActiveSince threshold capacity h result }
    {
        self.active_since
    }

    /// Since when the threshold has been due without a break, in seconds; none if it isn't due.
    pub fn due_since(&self) -> Option<u64>
        ensures { (threshold : AThreshold) (capacity : Option ℕ) (h : List Sample)
            → IsWatchedOf threshold capacity h self.now → IsDueSince threshold capacity h result }
    {
        self.due_since
    }
}

/// Since when a fact holds that holds at this moment, or doesn't, and has held since the moment before, if there is one.
fn since_after(holds: bool, before: Option<u64>, at: u64) -> Option<u64>
    ensures { result ≡ (if holds then option_or before (Some at) else None) }
{
    if holds { before.or(Some(at)) } else { None }
}
