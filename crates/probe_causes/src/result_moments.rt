//! The moments of an instance's results.

ghost use Rattle.std.specs.Prelude.{◌≡◌, ℕ, List, [], ◌∷◌, ◌++◌, length, Some, if◌then◌else◌, IsTrue, OnOk, IfOk};
ghost use Rattle.manifest.specs.rule.Probe.{Probe as AProbe, Probes as AllProbes};
ghost use Rattle.probes.specs.rule.Ticks.{Tick, tick, startup_results};
ghost use Rattle.probe_causes.specs.rule.Causes.{AreKillFailures, AreReadySuccesses, AreUnreadyFailures};
ghost use Rattle.probe_causes.specs.rule.Causes.{IsPassMoment};
ghost use Rattle.probe_causes.specs.state.ResultMoments.{AreMomentsOf, told_with, PassesNow};

use crate::moments::{add_told, first_of, last_of};
use manifest::{Outcome, Probe, Probes};
use probes::Cause;
use std::alloc::{AllocError, Global};

/// The moments, in seconds, of the results that belong to one instance of a container, for each of its probes.
#[derive(Drop)]
pub struct ResultMoments {
    probes: Probes,
    start: u64,
    passed: Option<u64>,
    startup: Vec<u64>,
    liveness: Vec<u64>,
    readiness: Vec<u64>,
}

impl ResultMoments {
    /// No result yet, of an instance that starts at this moment, in seconds.
    pub fn new(alloc: Global, probes: Probes, start: u64) -> ResultMoments
        ensures { AreMomentsOf probes start [] result }
    {
        ResultMoments {
            probes,
            start,
            passed: None,
            startup: Vec::new(alloc),
            liveness: Vec::new(alloc),
            readiness: Vec::new(alloc),
        }
    }

    /// The moment of the instance's start, in seconds.
    pub fn start(&self) -> u64
        ensures { (probes : AllProbes) (start : ℕ) (ticks : List Tick)
            → AreMomentsOf probes start ticks self.now → result ≡ start }
    {
        self.start
    }

    /// The moment, in seconds, of the tick in which startup passed; none while it has not, and none without a startup
    /// probe.
    pub fn passed(&self) -> Option<u64>
        ensures { (probes : AllProbes) (start : ℕ) (ticks : List Tick) → AreMomentsOf probes start ticks self.now
            → IsPassMoment probes.startup start ticks result }
    {
        self.passed
    }

    /// Takes the results of the next tick, at this moment in seconds, in the order startup, liveness, readiness;
    /// `passes`: the startup probe passes in this tick. An error leaves some of the results out.
    pub fn take(
        &mut self,
        at: u64,
        results: [Option<Outcome>; 3],
        passes: bool,
    ) -> Result<(), AllocError>
        ensures { OnOk result ((probes : AllProbes) (start : ℕ) (ticks : List Tick)
            → PassesNow probes.startup start ticks (tick at results) (IsTrue passes)
            → AreMomentsOf probes start ticks self.old
            → AreMomentsOf probes start (ticks ++ tick at results ∷ []) self.new) }
    {
        let [startup, liveness, readiness] = results;
        let start = self.start;
        take_result(&mut self.startup, self.probes.startup(), start, at, startup)?;
        take_result(
            &mut self.liveness,
            self.probes.liveness(),
            start,
            at,
            liveness,
        )?;
        take_result(
            &mut self.readiness,
            self.probes.readiness(),
            start,
            at,
            readiness,
        )?;
        self.passed = pass_moment(self.passed, passes, at);
        Ok(())
    }

    /// The moments of the failures for which the instance is to be killed, in the tick that was taken last.
    pub fn kill_failures(&self, alloc: Global, cause: Cause) -> Result<Vec<u64>, AllocError>
        ensures { (probes : AllProbes) (start : ℕ) (ticks : List Tick) (moments : List ℕ)
            → AreMomentsOf probes start ticks self.now → AreKillFailures probes start cause ticks moments
            → IfOk result (λ found. found.items ≡ moments) }
    {
        match cause {
            Cause::Startup => { first_of(alloc, &self.startup, failures_of(self.probes.startup())) }
            Cause::Liveness => {
                last_of(alloc, &self.liveness, failures_of(self.probes.liveness()))
            }
        }
    }

    /// The moments of the successes that make the instance ready, in the tick that was taken last.
    pub fn ready_successes(&self, alloc: Global) -> Result<Vec<u64>, AllocError>
        ensures { (probes : AllProbes) (start : ℕ) (ticks : List Tick) (moments : List ℕ)
            → AreMomentsOf probes start ticks self.now → AreReadySuccesses probes start ticks moments
            → IfOk result (λ found. found.items ≡ moments) }
    {
        last_of(
            alloc,
            &self.readiness,
            successes_of(self.probes.readiness()),
        )
    }

    /// The moments of the failures that make the instance unready, in the tick that was taken last.
    pub fn unready_failures(&self, alloc: Global) -> Result<Vec<u64>, AllocError>
        ensures { (probes : AllProbes) (start : ℕ) (ticks : List Tick) (moments : List ℕ)
            → AreMomentsOf probes start ticks self.now → AreUnreadyFailures probes start ticks moments
            → IfOk result (λ found. found.items ≡ moments) }
    {
        last_of(alloc, &self.readiness, failures_of(self.probes.readiness()))
    }

    /// How many results of the startup probe belong so far: in the tick in which it passes, the number of its success,
    /// counted from 1.
    pub fn startup_count(&self) -> usize
        ensures { (probes : AllProbes) (start : ℕ) (ticks : List Tick) (probe : AProbe)
            → AreMomentsOf probes start ticks self.now → probes.startup ≡ Some probe
            → result ≡ length (startup_results probe start ticks) }
    {
        self.startup.as_slice().len()
    }
}

/// The moment of the pass, which comes at this moment or came before, if it has come.
fn pass_moment(before: Option<u64>, passes: bool, at: u64) -> Option<u64>
    ensures { result ≡ (if passes then Some at else before) }
{
    if passes { Some(at) } else { before }
}

/// Adds the moment of a probe's result, if there is a probe and the result belongs.
fn take_result(
    moments: &mut Vec<u64>,
    probe: Option<Probe>,
    start: u64,
    at: u64,
    outcome: Option<Outcome>,
) -> Result<(), AllocError>
    ensures { OnOk result (moments.new.items ≡ moments.old.items ++ told_with probe start at outcome) }
{
    match probe {
        Some(probe) => add_told(moments, probe, start, at, outcome),
        None => Ok(()),
    }
}

/// The failure threshold of a probe, and 0 without one.
fn failures_of(probe: Option<Probe>) -> usize
    ensures { (p : AProbe) → probe ≡ Some p → result ≡ p.failure_threshold }
{
    match probe {
        Some(probe) => probe.failure_threshold() as usize,
        None => 0,
    }
}

/// The success threshold of a probe, and 0 without one.
fn successes_of(probe: Option<Probe>) -> usize
    ensures { (p : AProbe) → probe ≡ Some p → result ≡ p.success_threshold }
{
    match probe {
        Some(probe) => probe.success_threshold() as usize,
        None => 0,
    }
}
