//! Thresholds on a signal.

ghost use Rattle.std.specs.Prelude.{◌≡◌};
ghost use Rattle.signals.specs.rule.Signals.{kind_name};

use quantity::Limit;

/// Whether a threshold evicts at once or after a grace period. (Kubernetes, "Node-pressure
/// Eviction", "Soft eviction thresholds" and "Hard eviction thresholds".)
#[derive(Clone, Copy, Debug, PartialEq, Eq)]
pub enum ThresholdKind {
    /// It evicts at once, in the tick whose sample is below it.
    Hard,
    /// Once its signal fell below it, and stayed below it plus its minimum reclaim for the whole of its grace period.
    Soft,
}

impl ThresholdKind {
    /// `hard` or `soft`.
    pub fn name(self) -> &'static str
        ensures { result.now ≡ kind_name self }
    {
        match self {
            ThresholdKind::Hard => "hard",
            ThresholdKind::Soft => "soft",
        }
    }
}

/// An eviction threshold: it becomes active below the limit, and clears once the value has reached
/// the limit plus the reclaim. (Kubernetes, "Node-pressure Eviction", "Eviction thresholds" and
/// "Minimum eviction reclaim".)
#[derive(Clone, Copy, Debug, PartialEq, Eq)]
pub struct Threshold {
    /// The value below which the threshold becomes active.
    pub limit: Limit,
    /// How far above the limit the value has to rise before the threshold is cleared.
    pub reclaim: Limit,
    /// For how many seconds it has to be active before it is due: 0 for a hard threshold.
    pub grace: u64,
}
