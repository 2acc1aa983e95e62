//! Probes and their results.

ghost use Rattle.std.specs.Prelude.{◌≡◌};
ghost use Rattle.manifest.specs.rule.ProbeKinds.{place};

/// The result of one run of a probe (Kubernetes, "Pod Lifecycle", "Probe outcome").
#[derive(Clone, Copy, Debug, PartialEq, Eq)]
pub enum Outcome {
    Success,
    Failure,
    /// No action is taken, and no run of results ends.
    Unknown,
}

/// A probe of a container (Kubernetes, "Pod Lifecycle", "Types of probe").
#[derive(Clone, Copy, Debug, PartialEq, Eq)]
pub enum ProbeKind {
    Startup,
    Liveness,
    Readiness,
}

impl ProbeKind {
    /// Its place in the order startup, liveness, readiness, from 0 on.
    pub fn place(self) -> usize
        ensures { result ≡ place self }
    {
        match self {
            ProbeKind::Startup => 0,
            ProbeKind::Liveness => 1,
            ProbeKind::Readiness => 2,
        }
    }
}
