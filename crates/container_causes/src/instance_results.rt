//! The results of a container's newest instance.

ghost use Rattle.std.specs.Prelude.{◌≡◌, ◌↔◌, Some, IsTrue, IsSome, IsSomeAnd, OnOk};
ghost use Rattle.state_diff.specs.declared.seen.CriState.TheVariants.{Running};
ghost use Rattle.containers.specs.declared.pod_event_kind.PodEventKind.TheVariants.{StartupPassed};
ghost use Rattle.container_causes.specs.state.Watched.{IsBegun, IsTaken, IsTakenTo};

use containers::PodEventKind;
use manifest::{Outcome, Probes};
use probe_causes::ResultMoments;
use state_diff::Seen;
use std::alloc::{AllocError, Global};

/// The moments of the results that belong to an instance.
#[derive(Drop)]
pub(crate) struct InstanceResults {
    pub(crate) attempt: u32,
    pub(crate) moments: ResultMoments,
}

impl InstanceResults {
    /// Takes the results of one more tick, at this moment in seconds; `passed`: the event of a startup probe that passes
    /// in this tick, if one does.
    fn take(
        &mut self,
        passed: Option<PodEventKind>,
        at: u64,
        results: [Option<Outcome>; 3],
    ) -> Result<(), AllocError>
        ensures { OnOk result (IsTakenTo passed at results self.old self.new) }
    {
        let passes = is_pass_of(passed, self.attempt);
        self.moments.take(at, results, passes)
    }
}

/// Keeps the results of an instance that starts at this moment, if one does, in place of those of the one before.
pub(crate) fn begin(
    kept: &mut Option<InstanceResults>,
    alloc: Global,
    probes: Probes,
    started: Option<PodEventKind>,
    at: u64,
)
    ensures { IsBegun probes started at kept.old kept.new }
{
    if let Some(PodEventKind::Started { attempt }) = started {
        *kept = Some(InstanceResults {
            attempt,
            moments: ResultMoments::new(alloc, probes, at),
        });
    }
}

/// Takes the results of a tick, if they are those of the instance that has begun.
pub(crate) fn take_results(
    kept: &mut Option<InstanceResults>,
    passed: Option<PodEventKind>,
    takes: bool,
    at: u64,
    results: [Option<Outcome>; 3],
) -> Result<(), AllocError>
    ensures { OnOk result (IsTaken passed takes at results kept.old kept.new) }
{
    if takes {
        if let Some(instance) = kept {
            instance.take(passed, at, results)?;
        }
    }
    Ok(())
}

/// Whether the event is that the startup probe of this attempt passed.
fn is_pass_of(passed: Option<PodEventKind>, of: u32) -> bool
    ensures { IsTrue result ↔ (passed ≡ Some (StartupPassed of)) }
{
    match passed {
        Some(PodEventKind::StartupPassed { attempt }) => attempt == of,
        _ => false,
    }
}

/// Whether a tick's results are those of an instance: the tick lists one, and the newest one is running.
pub(crate) fn takes_results(listed: Option<Seen>, newest: Option<Seen>) -> bool
    ensures { IsTrue result ↔ (IsSome listed × IsSomeAnd newest (λ s. s.state ≡ Running)) }
{
    match newest {
        Some(newest) => listed.is_some() && newest.state.is_running(),
        None => false,
    }
}
