//! Which listings led to the events of an instance.

ghost use Rattle.std.specs.Prelude.{◌≡◌, Some, option_map, unwrap_or};
ghost use Rattle.state_diff.specs.declared.seen.Seen.{Seen as ASeen};
ghost use Rattle.container_causes.specs.declared.listing_causes.KeptTick.{KeptTick as AKeptTick};
ghost use Rattle.container_causes.specs.state.Listings.{unlisted_of};

use state_diff::{CriState, Seen};

/// Why an instance died that a tick no longer lists.
#[derive(Clone, Copy, Debug, PartialEq, Eq)]
pub struct Unlisted {
    /// The instance.
    pub attempt: u32,
    /// The attempt that the tick lists in its place; none if it lists nothing of the container.
    pub instead: Option<u32>,
    /// The moment, in seconds, of the tick before, which listed the instance.
    pub before: u64,
    /// The state in which that tick listed it.
    pub state: CriState,
}

/// Why an instance started.
#[derive(Clone, Copy, Debug, PartialEq, Eq)]
pub struct Listed {
    /// The instance, which the tick lists as running.
    pub attempt: u32,
    /// The moment, in seconds, of the tick before; none without one.
    pub before: Option<u64>,
    /// What that tick listed of the container; none without such a tick.
    pub was: Option<Option<Seen>>,
}

/// Why an instance died that the tick lists; the event has its exit code.
#[derive(Clone, Copy, Debug, PartialEq, Eq)]
pub struct Exited {
    /// The instance.
    pub attempt: u32,
    /// The moment, in seconds, of its start; none if no tick listed it as running.
    pub start: Option<u64>,
    /// The seconds from its start to the tick, and 0 without a start.
    pub run: u64,
}

/// A tick as far as a cause names it: its moment, in seconds, and what it listed of the container.
#[derive(Clone, Copy, Debug, PartialEq, Eq)]
pub(crate) struct KeptTick {
    pub(crate) at: u64,
    pub(crate) seen: Option<Seen>,
}

/// Why the instance died that the tick before listed, and this one doesn't.
pub(crate) fn unlisted_by(before: Option<KeptTick>, last: Option<KeptTick>) -> Option<Unlisted>
    ensures { (b l : AKeptTick) (was : ASeen) → before ≡ Some b → last ≡ Some l → b.seen ≡ Some was
        → result ≡ Some (unlisted_of b l was) }
{
    let before = before?;
    let last = last?;
    let was = before.seen?;
    Some(Unlisted {
        attempt: was.attempt,
        instead: attempt_of(last.seen),
        before: before.at,
        state: was.state,
    })
}

/// The attempt of a listing, if there is one.
fn attempt_of(seen: Option<Seen>) -> Option<u32>
    ensures { result ≡ option_map (λ s. s.attempt) seen }
{
    let seen = seen?;
    Some(seen.attempt)
}

/// The moment of a tick, if there is one.
pub(crate) fn moment_of(tick: Option<KeptTick>) -> Option<u64>
    ensures { result ≡ option_map (λ t. t.at) tick }
{
    let tick = tick?;
    Some(tick.at)
}

/// What a tick listed, if there is one.
pub(crate) fn listing_of(tick: Option<KeptTick>) -> Option<Option<Seen>>
    ensures { result ≡ option_map (λ t. t.seen) tick }
{
    let tick = tick?;
    Some(tick.seen)
}

/// How long an instance ran, in seconds; 0 if that isn't known.
pub(crate) fn run_of(run: Option<u64>) -> u64
    ensures { result ≡ unwrap_or run 0 }
{
    match run {
        Some(run) => run,
        None => 0,
    }
}
