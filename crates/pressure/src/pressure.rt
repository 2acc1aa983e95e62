//! One node condition of pressure.

ghost use Rattle.std.specs.Prelude.{◌≡◌, ◌≢◌, ◌⊎◌, ◌↔◌, ◌<◌, ◌-◌, ℕ, List, [], ◌∷◌, ◌++◌, Option, Some, None, Bool};
ghost use Rattle.std.specs.Prelude.{IsTrue, IsSomeAnd};
ghost use Rattle.histories.specs.rule.Histories.{recorded, HoldsAt, IsTransition};
ghost use Rattle.pressure.specs.rule.Pressures.{Observation, IsUnderPressure, IsSince};
ghost use Rattle.pressure.specs.state.State.{IsLatestMet, later_of, IsStateOf};

/// Follows one node condition, such as MemoryPressure, over its observations: whether the condition is
/// met, which it is while one of its thresholds is active. It stays true until it has not been met
/// for the transition period. It keeps the latest moment at which it was met and the moment of its
/// last transition, and none of the observations.
///
/// None of its answers needs moments that rise, so it asks for no order.
///
/// (Kubernetes, "Node-pressure Eviction", "Node conditions" and "Node condition oscillation".)
#[derive(Clone, Copy, Debug, PartialEq, Eq)]
pub struct Pressure {
    period: u64,
    latest_met: Option<u64>,
    is_true: bool,
    since: Option<u64>,
}

impl Pressure {
    /// A condition without any observation so far, with its transition period in seconds. With a
    /// period of 0 the condition is true exactly while it is met.
    pub fn new(period: u64) -> Pressure
        ensures { IsStateOf period [] result }
    {
        Pressure {
            period,
            latest_met: None,
            is_true: false,
            since: None,
        }
    }

    /// An observation comes, of the moment `at`, in seconds: whether the condition is met.
    pub fn observe(&mut self, at: u64, met: bool)
        ensures { (period : ℕ) (h : List Observation)
            → IsStateOf period h self.old
            → IsStateOf period (h ++ recorded at met ∷ []) self.new }
    {
        let is_true = self.is_true_after(at, met);
        self.since = self.since_after(at, is_true);
        self.latest_met = latest_after(self.latest_met, at, met);
        self.is_true = is_true;
    }

    /// Whether the condition is true: it is met, or was met at an earlier observation, less than
    /// the period before the last one. Without any observation it is not.
    pub fn is_true(&self) -> bool
        ensures { (period : ℕ) (h : List Observation)
            → IsStateOf period h self.now
            → (IsTrue result ↔ IsUnderPressure period h) }
    {
        self.is_true
    }

    /// Since when the condition has been true, or has not been, in seconds: the moment of the first
    /// observation from which on it was the same. Without any observation 0.
    pub fn since(&self) -> u64
        ensures { (period : ℕ) (h : List Observation)
            → IsStateOf period h self.now
            → IsSince period h result }
    {
        self.since.unwrap_or(0)
    }

    /// Whether the condition was met less than the period before the moment `at`.
    fn was_met_lately(&self, at: u64) -> bool
        ensures { IsTrue result ↔ IsSomeAnd self.now.latest_met (λ moment. at - moment < self.now.period) }
    {
        match self.latest_met {
            Some(moment) => at.saturating_sub(moment) < self.period,
            None => false,
        }
    }

    /// Whether the condition is true, once an observation has come.
    fn is_true_after(&self, at: u64, met: bool) -> bool
        ensures { IsTrue result
            ↔ (IsTrue met
            ⊎ IsSomeAnd self.now.latest_met (λ moment. at - moment < self.now.period)) }
    {
        met || self.was_met_lately(at)
    }

    /// Whether the value is another than before, or the first.
    fn changes(&self, is_true: bool) -> bool
        ensures { IsTrue result ↔ ((self.now.since ≡ None) ⊎ (self.now.is_true ≢ is_true)) }
    {
        self.since.is_none() || self.is_true != is_true
    }

    /// Since when the condition has had its value, once an observation at the moment `at` gives it
    /// this one.
    fn since_after(&self, at: u64, is_true: bool) -> Option<u64>
        ensures { (period : ℕ) (h : List Observation) (met : Bool)
            → IsStateOf period h self.now
            → (IsTrue is_true ↔ IsUnderPressure period (h ++ recorded at met ∷ []))
            → IsTransition (h ++ recorded at met ∷ [])
            (HoldsAt (IsUnderPressure period) (h ++ recorded at met ∷ [])) result }
    {
        if self.changes(is_true) {
            Some(at)
        } else {
            self.since
        }
    }
}

/// The latest moment at which the condition was met, once an observation has come.
fn latest_after(latest: Option<u64>, at: u64, met: bool) -> Option<u64>
    ensures { (h : List Observation) → IsLatestMet h latest → IsLatestMet (h ++ recorded at met ∷ []) result }
{
    if met { Some(later(latest, at)) } else { latest }
}

/// The later of the two moments.
fn later(latest: Option<u64>, at: u64) -> u64
    ensures { result ≡ later_of latest at }
{
    match latest {
        Some(moment) => at.max(moment),
        None => at,
    }
}
