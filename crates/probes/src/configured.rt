//! A probe that may not be configured.

ghost use Rattle.std.specs.Prelude.{◌≡◌};
ghost use Rattle.probes.specs.state.Ticks.{result_of};

use crate::outcome::belonging;
use manifest::{Outcome, Probe};
use std::marker::Model;

/// The probe that a container is configured with, or none. Contracts see the option. The type is around the option so
/// that a vector can hold what contains it: the toolchain can't follow a bare one there.
#[derive(Clone, Copy, Debug, PartialEq, Eq)]
pub struct Configured {
    probe: Option<Probe>,
}

impl Model for Configured {
    ghost use Rattle.std.specs.Prelude.{Option};
    ghost use Rattle.manifest.specs.rule.Probe.{Probe};

    ghost Value = { Option Probe };

    ghost view = { λ c. c.probe };

    ghost inverse = { λ v. record { probe = v } };
}

/// A probe and a result of it.
#[derive(Clone, Copy)]
pub(crate) struct ProbeResult {
    pub(crate) probe: Probe,
    pub(crate) outcome: Outcome,
}

impl Configured {
    pub fn new(probe: Option<Probe>) -> Self
        ensures { result ≡ probe }
    {
        Configured { probe }
    }

    pub fn get(self) -> Option<Probe>
        ensures { result ≡ self }
    {
        self.probe
    }

    /// The probe and its outcome, if there is a probe and this outcome belongs to an instance of this age in seconds.
    pub(crate) fn result(self, age: u64, outcome: Option<Outcome>) -> Option<ProbeResult>
        ensures { result ≡ result_of self age outcome }
    {
        let probe = self.probe?;
        let outcome = belonging(probe, age, outcome)?;
        Some(ProbeResult { probe, outcome })
    }
}
