//! Probes of a container (Kubernetes, "Configure Liveness, Readiness and Startup Probes").

ghost use Rattle.std.specs.Prelude.{◌≡◌, ◌≤◌, ◌<◌, ◌^◌};
ghost use Rattle.manifest.specs.rule.Probe.{probe, no_probes};
ghost use Rattle.manifest.specs.state.Probe.{IsInRange, HasNumbersInRange, SucceedsByOne};

use std::marker::Model;

/// One probe of a container. Contracts see its five numbers.
#[derive(Clone, Copy, Debug, PartialEq, Eq)]
pub struct Probe {
    initial_delay_seconds: u32,
    period_seconds: u32,
    timeout_seconds: u32,
    success_threshold: u32,
    failure_threshold: u32,
}

impl Model for Probe {
    ghost use Rattle.manifest.specs.rule.Probe.{Probe, probe};
    ghost use Rattle.manifest.specs.state.Probe.{IsInRange};

    ghost Value = { Probe };

    ghost view = { λ p. probe p.initial_delay_seconds p.period_seconds p.timeout_seconds p.success_threshold
        p.failure_threshold };

    ghost invariant = { λ p. IsInRange
        (probe p.initial_delay_seconds p.period_seconds p.timeout_seconds p.success_threshold p.failure_threshold) };

    ghost inverse = { λ v. record {
      initial_delay_seconds = v.initial_delay_seconds;
      period_seconds = v.period_seconds;
      timeout_seconds = v.timeout_seconds;
      success_threshold = v.success_threshold;
      failure_threshold = v.failure_threshold;
    } };
}

impl Probe {
    /// A probe with these numbers.
    pub fn new(
        initial_delay_seconds: u32,
        period_seconds: u32,
        timeout_seconds: u32,
        success_threshold: u32,
        failure_threshold: u32,
    ) -> Probe
        requires { IsInRange
            (probe initial_delay_seconds period_seconds timeout_seconds success_threshold failure_threshold) }
        ensures { result ≡
            probe initial_delay_seconds period_seconds timeout_seconds success_threshold failure_threshold }
    {
        Probe {
            initial_delay_seconds,
            period_seconds,
            timeout_seconds,
            success_threshold,
            failure_threshold,
        }
    }

    /// `initialDelaySeconds`: the seconds from the instance's start before results count.
    pub fn initial_delay_seconds(self) -> u32
        ensures value { result ≡ self.initial_delay_seconds }
        ensures most { result < 2 ^ 31 }
    {
        self.initial_delay_seconds
    }

    /// `periodSeconds`: the seconds from one check to the next. A trace has the results alone, so
    /// the replay doesn't use it.
    pub fn period_seconds(self) -> u32
        ensures value { result ≡ self.period_seconds }
        ensures least { 1 ≤ result }
        ensures most { result < 2 ^ 31 }
    {
        self.period_seconds
    }

    /// `timeoutSeconds`: the seconds after which a check has failed. A trace has the results alone,
    /// so the replay doesn't use it.
    pub fn timeout_seconds(self) -> u32
        ensures value { result ≡ self.timeout_seconds }
        ensures least { 1 ≤ result }
        ensures most { result < 2 ^ 31 }
    {
        self.timeout_seconds
    }

    /// `successThreshold`: how many successes in a row make the probe succeed.
    pub fn success_threshold(self) -> u32
        ensures value { result ≡ self.success_threshold }
        ensures least { 1 ≤ result }
        ensures most { result < 2 ^ 31 }
    {
        self.success_threshold
    }

    /// `failureThreshold`: how many failures in a row make the probe fail.
    pub fn failure_threshold(self) -> u32
        ensures value { result ≡ self.failure_threshold }
        ensures least { 1 ≤ result }
        ensures most { result < 2 ^ 31 }
    {
        self.failure_threshold
    }
}

/// The probes of a container. For startup and liveness one success is enough. Contracts see the
/// three.
#[derive(Clone, Copy, Debug, PartialEq, Eq)]
pub struct Probes {
    startup: Option<Probe>,
    liveness: Option<Probe>,
    readiness: Option<Probe>,
}

impl Model for Probes {
    ghost use Rattle.manifest.specs.rule.Probe.{Probes};
    ghost use Rattle.manifest.specs.state.Probe.{AreProbes};

    ghost Value = { Probes };

    ghost view = { λ p. record { startup = p.startup; liveness = p.liveness; readiness = p.readiness } };

    ghost invariant = { λ p. AreProbes
        (record { startup = p.startup; liveness = p.liveness; readiness = p.readiness }) };

    ghost inverse = { λ v. record { startup = v.startup; liveness = v.liveness; readiness = v.readiness } };
}

impl Probes {
    /// The probes of a container, of each kind one or none.
    pub fn new(startup: Option<Probe>, liveness: Option<Probe>, readiness: Option<Probe>) -> Probes
        requires startup_by_one { SucceedsByOne startup }
        requires liveness_by_one { SucceedsByOne liveness }
        ensures { result ≡ record { startup = startup; liveness = liveness; readiness = readiness } }
    {
        Probes {
            startup,
            liveness,
            readiness,
        }
    }

    /// A container's probes where none is written.
    pub fn none() -> Probes
        ensures { result ≡ no_probes }
    {
        Probes {
            startup: None,
            liveness: None,
            readiness: None,
        }
    }

    /// `startupProbe`: until it has succeeded, the others are not run.
    pub fn startup(self) -> Option<Probe>
        ensures value { result ≡ self.startup }
        ensures in_range { HasNumbersInRange result }
        ensures by_one { SucceedsByOne result }
    {
        self.startup
    }

    /// `livenessProbe`: where it fails, the container is killed.
    pub fn liveness(self) -> Option<Probe>
        ensures value { result ≡ self.liveness }
        ensures in_range { HasNumbersInRange result }
        ensures by_one { SucceedsByOne result }
    {
        self.liveness
    }

    /// `readinessProbe`: whether the container is ready.
    pub fn readiness(self) -> Option<Probe>
        ensures value { result ≡ self.readiness }
        ensures in_range { HasNumbersInRange result }
    {
        self.readiness
    }
}
