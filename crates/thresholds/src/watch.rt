//! A threshold over the samples of its signal.

ghost use Rattle.std.specs.Prelude.{◌≡◌, ◌↔◌, ◌≤◌, ◌-◌, ℕ, List, [], ◌∷◌, ◌++◌, Option, Some, None, IsTrue, IsSome};
ghost use Rattle.std.specs.Prelude.{IsSomeAnd, IfSome};
ghost use Rattle.std.specs.Option.{option_or};
ghost use Rattle.quantity.specs.rule.Quantity.{greatest_quantity};
ghost use Rattle.signals.specs.declared.threshold.Threshold.{Threshold};
ghost use Rattle.quantity.specs.state.Limit.{HasItsCapacity};
ghost use Rattle.thresholds.specs.rule.Samples.{Sample, sample as sample_of, IsBelow};
ghost use Rattle.thresholds.specs.rule.Thresholds.{IsThresholdActive, IsThresholdDue};
ghost use Rattle.thresholds.specs.state.Watch.{IsActiveAfter, IsStateOf};

use signals::Threshold;

/// Follows one eviction threshold over the samples of its signal. It keeps since when the threshold
/// is active, and none of the samples.
///
/// None of its answers needs moments that rise, so it asks for no order: where a sample's moment is
/// not later than the beginning of the active stretch, no second of the grace period has passed.
#[derive(Clone, Copy, Debug, PartialEq, Eq)]
pub struct Watch {
    limit: u128,
    clears_from: u128,
    grace: u64,
    active_since: Option<u64>,
    due: bool,
}

impl Watch {
    /// A threshold without any sample so far. `capacity` is that of the signal, in thousandths: a
    /// percentage is of it, so a threshold with a percentage needs it.
    pub fn new(threshold: Threshold, capacity: Option<u128>) -> Watch
        requires limit { HasItsCapacity capacity threshold.limit }
        requires reclaim { HasItsCapacity capacity threshold.reclaim }
        requires capacity { IfSome capacity (λ c. c ≤ greatest_quantity) }
        ensures { IsStateOf threshold capacity [] result }
    {
        let limit = threshold.limit.amount(capacity);
        Watch {
            limit,
            clears_from: limit + threshold.reclaim.amount(capacity),
            grace: threshold.grace,
            active_since: None,
            due: false,
        }
    }

    /// A sample comes, of the moment `at`, in seconds, with the signal's value in thousandths, if
    /// it has one. An absent value is below nothing.
    pub fn sample(&mut self, at: u64, value: Option<u128>)
        ensures { (threshold : Threshold) (capacity : Option ℕ) (h : List Sample)
            → IsStateOf threshold capacity h self.old
            → IsStateOf threshold capacity (h ++ sample_of at value ∷ []) self.new }
    {
        self.active_since = self.active_since_after(at, value);
        self.due = has_lasted(self.grace, self.active_since, at);
    }

    /// Whether the threshold is active: the value was below the limit, and has been below the limit
    /// plus the reclaim since. (Kubernetes, "Node-pressure Eviction", "Eviction thresholds" and
    /// "Minimum eviction reclaim".)
    pub fn active(&self) -> bool
        ensures { (threshold : Threshold) (capacity : Option ℕ) (h : List Sample)
            → IsStateOf threshold capacity h self.now
            → (IsTrue result ↔ IsThresholdActive threshold capacity h) }
    {
        self.is_active_so_far()
    }

    /// Whether the threshold is due: it is active, and at the last sample has been for at least its
    /// grace period. (Kubernetes, "Node-pressure Eviction", "Soft eviction thresholds" and "Hard
    /// eviction thresholds".)
    pub fn due(&self) -> bool
        ensures { (threshold : Threshold) (capacity : Option ℕ) (h : List Sample)
            → IsStateOf threshold capacity h self.now
            → (IsTrue result ↔ IsThresholdDue threshold capacity h) }
    {
        self.due
    }

    /// Whether the threshold is active after the samples so far.
    fn is_active_so_far(&self) -> bool
        ensures { IsTrue result ↔ IsSome self.now.active_since }
    {
        self.active_since.is_some()
    }

    /// Whether the threshold is active once this value has come.
    fn is_active_after(&self, value: Option<u128>) -> bool
        ensures { IsTrue result ↔ IsActiveAfter self.now value }
    {
        is_below(value, self.limit) || self.is_active_so_far() && is_below(value, self.clears_from)
    }

    /// Since when the threshold is active, once this sample has come.
    fn active_since_after(&self, at: u64, value: Option<u128>) -> Option<u64>
        ensures active { IsActiveAfter self.now value → result ≡ option_or self.now.active_since (Some at) }
        ensures cleared { ¬ IsActiveAfter self.now value → result ≡ None }
    {
        if self.is_active_after(value) {
            self.active_since.or(Some(at))
        } else {
            None
        }
    }
}

/// Whether a value is below the limit. An absent one is not.
fn is_below(value: Option<u128>, limit: u128) -> bool
    ensures { IsTrue result ↔ IsBelow limit value }
{
    match value {
        Some(value) => value < limit,
        None => false,
    }
}

/// Whether at least the grace period has passed from the beginning, if there is one, to the moment `at`.
fn has_lasted(grace: u64, since: Option<u64>, at: u64) -> bool
    ensures { IsTrue result ↔ IsSomeAnd since (λ moment. grace ≤ at - moment) }
{
    match since {
        Some(since) => at.saturating_sub(since) >= grace,
        None => false,
    }
}
