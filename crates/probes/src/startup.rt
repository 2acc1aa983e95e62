//! The startup probe of an instance, result by result.

ghost use Rattle.std.specs.Prelude.{◌≡◌, ◌≢◌, ◌≤◌, ◌↔◌, ℕ, List, ◌∷◌, [], ◌++◌, IsTrue};
ghost use Rattle.manifest.specs.declared.outcome.Outcome.{Outcome};
ghost use Rattle.probes.specs.rule.Ticks.{Tick, IsStarted, HasStartupFailed};
ghost use Rattle.probes.specs.state.Ticks.{TakesOne};
ghost use Rattle.probes.specs.state.Startup.{IsProgressOf, IsStartupOf};

use crate::configured::Configured;
use crate::outcome::is_success;
use manifest::Outcome;

/// How far the startup of an instance has come.
#[derive(Clone, Copy, Debug, PartialEq, Eq)]
pub enum StartupProgress {
    /// Neither passed nor failed yet, after this many failures.
    Waiting(u32),
    Passed,
    Failed,
}

impl StartupProgress {
    /// The progress after one more result that belongs.
    fn after(self, outcome: Outcome, limit: u32) -> StartupProgress
        requires known { outcome ≢ Outcome.Unknown }
        requires limited { 1 ≤ limit }
        ensures { (results : List Outcome) → IsProgressOf limit results self
            → IsProgressOf limit (results ++ outcome ∷ []) result }
    {
        match self {
            StartupProgress::Waiting(failures) => {
                if is_success(outcome) {
                    StartupProgress::Passed
                } else if failures < limit - 1 {
                    StartupProgress::Waiting(failures + 1)
                } else {
                    StartupProgress::Failed
                }
            }
            StartupProgress::Passed => StartupProgress::Passed,
            StartupProgress::Failed => StartupProgress::Failed,
        }
    }
}

/// Follows the startup probe of one instance; without a probe startup has passed from the start on.
#[derive(Clone, Copy, Debug, PartialEq, Eq)]
pub struct Startup {
    pub probe: Configured,
    progress: StartupProgress,
}

impl Startup {
    pub fn new(probe: Configured) -> Self
        ensures probe { result.probe ≡ probe }
        ensures state { (start : ℕ) → IsStartupOf start [] result }
    {
        match probe.get() {
            Some(_) => Startup {
                probe,
                progress: StartupProgress::Waiting(0),
            },
            None => Startup {
                probe,
                progress: StartupProgress::Passed,
            },
        }
    }

    pub fn has_passed(&self) -> bool
        ensures { (start : ℕ) (ticks : List Tick) → IsStartupOf start ticks self.now
            → (IsTrue result ↔ IsStarted self.now.probe start ticks) }
    {
        matches!(self.progress, StartupProgress::Passed)
    }

    pub fn has_failed(&self) -> bool
        ensures { (start : ℕ) (ticks : List Tick) → IsStartupOf start ticks self.now
            → (IsTrue result ↔ HasStartupFailed self.now.probe start ticks) }
    {
        matches!(self.progress, StartupProgress::Failed)
    }

    /// Takes the startup probe's result in a tick, at this age of the instance.
    pub fn take(&mut self, age: u64, outcome: Option<Outcome>)
        ensures probe { self.new.probe ≡ self.old.probe }
        ensures state { TakesOne IsStartupOf (λ results. results.startup) age outcome self.old self.new }
    {
        let Some(found) = self.probe.result(age, outcome) else {
            return;
        };
        self.progress = self
            .progress
            .after(found.outcome, found.probe.failure_threshold());
    }
}
