//! The readiness probe of an instance, result by result.

ghost use Rattle.std.specs.Prelude.{◌≡◌, ◌↔◌, ◌⊎◌, ℕ, List, [], IsTrue};
ghost use Rattle.probes.specs.rule.Ticks.{Tick, HoldsReady};
ghost use Rattle.probes.specs.state.Ticks.{TakesOne};
ghost use Rattle.probes.specs.state.Readiness.{IsReadinessOf};

use crate::configured::Configured;
use crate::outcome::{is_failure, is_success};
use crate::run_length::extend_run;
use manifest::Outcome;

/// Follows the readiness probe of one instance over the ticks that count; without a probe it is
/// ready.
#[derive(Clone, Copy, Debug, PartialEq, Eq)]
pub struct Readiness {
    pub probe: Configured,
    /// The successes at the end, counted up to the success threshold.
    successes: u32,
    /// The failures at the end, counted up to the failure threshold.
    failures: u32,
    ready: bool,
}

impl Readiness {
    pub fn new(probe: Configured) -> Self
        ensures probe { result.probe ≡ probe }
        ensures state { (start : ℕ) → IsReadinessOf start [] result }
    {
        Readiness {
            probe,
            successes: 0,
            failures: 0,
            ready: probe.get().is_none(),
        }
    }

    pub fn is_ready(&self) -> bool
        ensures { (start : ℕ) (ticks : List Tick) → IsReadinessOf start ticks self.now
            → (IsTrue result ↔ HoldsReady self.now.probe start ticks) }
    {
        self.ready
    }

    /// Takes the readiness probe's result in a tick that counts, at this age of the instance.
    pub fn take(&mut self, age: u64, outcome: Option<Outcome>)
        ensures probe { self.new.probe ≡ self.old.probe }
        ensures state { TakesOne IsReadinessOf (λ results. results.readiness) age outcome self.old self.new }
    {
        let Some(found) = self.probe.result(age, outcome) else {
            return;
        };
        self.successes = extend_run(
            self.successes,
            is_success(found.outcome),
            found.probe.success_threshold(),
        );
        self.failures = extend_run(
            self.failures,
            is_failure(found.outcome),
            found.probe.failure_threshold(),
        );
        let succeeds = self.successes == found.probe.success_threshold();
        let fails = self.failures == found.probe.failure_threshold();
        self.ready = stays_ready(self.ready, succeeds, fails);
    }
}

/// Whether it is ready after a result with which enough successes, or enough failures, came in a
/// row.
fn stays_ready(ready: bool, succeeds: bool, fails: bool) -> bool
    ensures { IsTrue result ↔ (IsTrue succeeds ⊎ (IsTrue ready × (IsTrue fails → ⊥))) }
{
    succeeds || ready && !fails
}
