//! What an instance lacks to be ready.

ghost use Rattle.std.specs.Prelude.{◌↔◌, ◌⊎◌, IsTrue, IsSome};

use manifest::Probe;

/// What the newest instance lacks to be ready.
#[derive(Clone, Copy, Debug, PartialEq, Eq)]
pub struct Lacking {
    /// Its start, or that it still runs.
    pub start: bool,
    /// That its startup probe passes.
    pub startup: bool,
    /// That its readiness probe makes it ready.
    pub readiness: bool,
}

/// Whether an instance lacks a start: it has exited, or never started.
pub(crate) fn lacks_start(exited_at: Option<u64>, start: Option<u64>) -> bool
    ensures { IsTrue result ↔ (IsSome exited_at ⊎ (IsSome start → ⊥)) }
{
    exited_at.is_some() || start.is_none()
}

/// Whether an instance lacks what one of its probes has to do, and has not done.
pub(crate) fn lacks_probe(exited_at: Option<u64>, probe: Option<Probe>, is_done: bool) -> bool
    ensures { IsTrue result ↔ ((IsSome exited_at → ⊥) × IsSome probe × (IsTrue is_done → ⊥)) }
{
    exited_at.is_none() && probe.is_some() && !is_done
}
