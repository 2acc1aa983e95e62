//! The probes of a container through one tick.

ghost use Rattle.std.specs.Prelude.{◌≡◌, ◌↔◌, ℕ, List, [], ◌∷◌, ◌++◌, length, None, IsTrue, IsSome, IsSomeAnd, IfSome};
ghost use Rattle.state_diff.specs.declared.seen.CriState.TheVariants.{Running};
ghost use Rattle.manifest.specs.rule.Probe.{Probes};
ghost use Rattle.probes.specs.rule.Ticks.{Tick, tick};
ghost use Rattle.probes.specs.state.ProbeSet.{Follows, HasBegun, IsStateOf, AreVerdicts};
ghost use Rattle.containers.specs.state.Step.{ticks_at};

use manifest::Outcome;
use probes::{ProbeSet, Verdicts};
use state_diff::{Changes, Seen};

/// What a tick changes of a container's instances, and its verdicts on the listed one, if that is
/// running.
#[derive(Clone, Copy, Debug, PartialEq, Eq)]
pub struct Followed {
    pub changes: Changes,
    pub verdicts: Option<Verdicts>,
}

/// Begins a new instance at this moment, if one starts.
pub fn begin(probes: &mut ProbeSet, at: u64, starts: bool)
    ensures begins { (of : Probes) → IsTrue starts → Follows probes.old of → IsStateOf of at [] probes.new }
    ensures idle { (IsTrue starts → ⊥) → probes.new ≡ probes.old }
{
    if starts {
        probes.begin_instance(at);
    }
}

/// Gives the results to the instance that has begun, if the tick lists it while it is running.
pub fn take(
    probes: &mut ProbeSet,
    at: u64,
    takes: bool,
    results: [Option<Outcome>; 3],
) -> Option<Verdicts>
    ensures state { (of : Probes) (start : ℕ) (ticks : List Tick)
        → IsStateOf of start ticks probes.old
        → IsStateOf of start (ticks ++ ticks_at takes at results) probes.new }
    ensures verdicts { (of : Probes) (start : ℕ) (ticks : List Tick)
        → IsStateOf of start ticks probes.old
        → IfSome result (λ v. AreVerdicts of start (ticks ++ tick at results ∷ []) (length ticks) v) }
    ensures some { HasBegun probes.old → IsTrue takes → IsSome result }
    ensures none { (IsTrue takes → ⊥) → result ≡ None }
    ensures idle { (IsTrue takes → ⊥) → probes.new ≡ probes.old }
{
    if takes && probes.has_begun() {
        Some(probes.take(at, results))
    } else {
        None
    }
}

/// Whether the tick lists an instance and the newest one is running.
pub fn lists_running(listed: Option<Seen>, newest: Option<Seen>) -> bool
    ensures { IsTrue result ↔ (IsSome listed × IsSomeAnd newest (λ s. s.state ≡ Running)) }
{
    listed.is_some() && is_running(newest)
}

/// Whether the instance is running.
pub fn is_running(seen: Option<Seen>) -> bool
    ensures { IsTrue result ↔ IsSomeAnd seen (λ s. s.state ≡ Running) }
{
    match seen {
        Some(seen) => seen.state.is_running(),
        None => false,
    }
}
