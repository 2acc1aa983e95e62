//! Results of probes, and which of them belong to an instance.

ghost use Rattle.std.specs.Prelude.{◌≡◌, ◌↔◌, IsTrue};
ghost use Rattle.manifest.specs.declared.outcome.Outcome.TheVariants.{Success, Failure};
ghost use Rattle.probes.specs.rule.Outcomes.{is_known};
ghost use Rattle.probes.specs.rule.Ticks.{belonging};

use manifest::{Outcome, Probe};

pub(crate) fn is_success(outcome: Outcome) -> bool
    ensures { IsTrue result ↔ (outcome ≡ Success) }
{
    matches!(outcome, Outcome::Success)
}

pub(crate) fn is_failure(outcome: Outcome) -> bool
    ensures { IsTrue result ↔ (outcome ≡ Failure) }
{
    matches!(outcome, Outcome::Failure)
}

fn is_known(outcome: Outcome) -> bool
    ensures { result ≡ is_known outcome }
{
    !matches!(outcome, Outcome::Unknown)
}

/// The outcome, if it belongs to an instance of this age in seconds: it is a success or a failure, and the probe's
/// initial delay is over. (Kubernetes, "Pod Lifecycle", "Probe outcome"; "Configure Liveness, Readiness and Startup
/// Probes", initialDelaySeconds.)
pub fn belonging(probe: Probe, age: u64, outcome: Option<Outcome>) -> Option<Outcome>
    ensures { result ≡ belonging probe age outcome }
{
    let outcome = outcome?;
    if is_known(outcome) && u64::from(probe.initial_delay_seconds()) <= age {
        Some(outcome)
    } else {
        None
    }
}
