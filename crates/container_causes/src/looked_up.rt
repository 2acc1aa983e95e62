//! What is looked up of the results of the newest instance.

ghost use Rattle.std.specs.Prelude.{◌≡◌, ℕ, List, length, Some, IfSome, IfOk};
ghost use Rattle.manifest.specs.rule.Probe.{Probe, Probes};
ghost use Rattle.probes.specs.rule.Ticks.{Tick, startup_results};
ghost use Rattle.probe_causes.specs.rule.Causes.{AreKillFailures, AreReadySuccesses, AreUnreadyFailures};
ghost use Rattle.probe_causes.specs.rule.Causes.{IsPassMoment};
ghost use Rattle.probe_causes.specs.state.ResultMoments.{AreMomentsOf};

use crate::instance_results::InstanceResults;
use probes::Cause;
use std::alloc::{AllocError, Global};

/// The moments of the failures for which the instance is to be killed.
pub(crate) fn kill_failures_of(
    kept: &Option<InstanceResults>,
    alloc: Global,
    cause: Cause,
) -> Result<Vec<u64>, AllocError>
    ensures { IfSome kept.now (λ i. (probes : Probes) (start : ℕ) (ticks : List Tick) (moments : List ℕ)
        → AreMomentsOf probes start ticks i.moments → AreKillFailures probes start cause ticks moments
        → IfOk result (λ found. found.items ≡ moments)) }
{
    match kept {
        Some(instance) => instance.moments.kill_failures(alloc, cause),
        None => Ok(Vec::new(alloc)),
    }
}

/// The moments of the successes that make the instance ready.
pub(crate) fn ready_successes_of(
    kept: &Option<InstanceResults>,
    alloc: Global,
) -> Result<Vec<u64>, AllocError>
    ensures { IfSome kept.now (λ i. (probes : Probes) (start : ℕ) (ticks : List Tick) (moments : List ℕ)
        → AreMomentsOf probes start ticks i.moments → AreReadySuccesses probes start ticks moments
        → IfOk result (λ found. found.items ≡ moments)) }
{
    match kept {
        Some(instance) => instance.moments.ready_successes(alloc),
        None => Ok(Vec::new(alloc)),
    }
}

/// The moments of the failures that make the instance unready.
pub(crate) fn unready_failures_of(
    kept: &Option<InstanceResults>,
    alloc: Global,
) -> Result<Vec<u64>, AllocError>
    ensures { IfSome kept.now (λ i. (probes : Probes) (start : ℕ) (ticks : List Tick) (moments : List ℕ)
        → AreMomentsOf probes start ticks i.moments → AreUnreadyFailures probes start ticks moments
        → IfOk result (λ found. found.items ≡ moments)) }
{
    match kept {
        Some(instance) => instance.moments.unready_failures(alloc),
        None => Ok(Vec::new(alloc)),
    }
}

/// How many results of the startup probe belong to the instance so far.
pub(crate) fn startup_count_of(kept: &Option<InstanceResults>) -> usize
    ensures { IfSome kept.now (λ i. (probes : Probes) (start : ℕ) (ticks : List Tick) (probe : Probe)
        → AreMomentsOf probes start ticks i.moments → probes.startup ≡ Some probe
        → result ≡ length (startup_results probe start ticks)) }
{
    match kept {
        Some(instance) => instance.moments.startup_count(),
        None => 0,
    }
}

/// The moment in which startup of the instance passed.
pub(crate) fn pass_moment_of(kept: &Option<InstanceResults>) -> Option<u64>
    ensures { IfSome kept.now (λ i. (probes : Probes) (start : ℕ) (ticks : List Tick)
        → AreMomentsOf probes start ticks i.moments → IsPassMoment probes.startup start ticks result) }
{
    match kept {
        Some(instance) => instance.moments.passed(),
        None => None,
    }
}
