//! The liveness probe of an instance, result by result.

ghost use Rattle.std.specs.Prelude.{◌≡◌, ◌↔◌, ℕ, List, [], IsTrue};
ghost use Rattle.probes.specs.rule.Ticks.{Tick, HasLivenessFailed};
ghost use Rattle.probes.specs.state.Ticks.{TakesOne};
ghost use Rattle.probes.specs.state.Liveness.{IsLivenessOf};

use crate::configured::Configured;
use crate::outcome::is_failure;
use crate::run_length::extend_run;
use manifest::Outcome;

/// Follows the liveness probe of one instance over the ticks that count.
#[derive(Clone, Copy, Debug, PartialEq, Eq)]
pub struct Liveness {
    pub probe: Configured,
    /// The failures at the end, counted up to the failure threshold.
    failures: u32,
    failed: bool,
}

impl Liveness {
    pub fn new(probe: Configured) -> Self
        ensures probe { result.probe ≡ probe }
        ensures state { (start : ℕ) → IsLivenessOf start [] result }
    {
        Liveness {
            probe,
            failures: 0,
            failed: false,
        }
    }

    pub fn has_failed(&self) -> bool
        ensures { (start : ℕ) (ticks : List Tick) → IsLivenessOf start ticks self.now
            → (IsTrue result ↔ HasLivenessFailed self.now.probe start ticks) }
    {
        self.failed
    }

    /// Takes the liveness probe's result in a tick that counts, at this age of the instance.
    pub fn take(&mut self, age: u64, outcome: Option<Outcome>)
        ensures probe { self.new.probe ≡ self.old.probe }
        ensures state { TakesOne IsLivenessOf (λ results. results.liveness) age outcome self.old self.new }
    {
        let Some(found) = self.probe.result(age, outcome) else {
            return;
        };
        let limit = found.probe.failure_threshold();
        self.failures = extend_run(self.failures, is_failure(found.outcome), limit);
        self.failed |= self.failures == limit;
    }
}
