//! Whether a pod is over: by this the pause after its eviction may end.

ghost use Rattle.std.specs.Prelude.{◌≡◌, option_map};
ghost use Rattle.std.specs.List.{list_all};
ghost use Rattle.observations.specs.rule.Observations.{listed_in};
ghost use Rattle.eviction.specs.rule.Replay.{has_ended, is_over, is_over_in};

use observations::{PodObs, TickObs};
use state_diff::Seen;

/// Whether a container has ended in a tick that lists this of it.
fn has_ended(seen: Option<Seen>) -> bool
    ensures { result ≡ has_ended seen }
{
    match seen {
        None => true,
        Some(seen) => seen.state.is_exited(),
    }
}

/// What is listed of the container with the number.
fn listed_in(shown: &PodObs, number: usize) -> Option<Seen>
    ensures { result ≡ listed_in shown.now number }
{
    let container = shown.container(number)?;
    container.seen
}

/// Whether all containers have ended.
fn have_ended(shown: &PodObs) -> bool
    ensures { result ≡ list_all (λ container. has_ended container.seen) shown.now.containers }
{
    for number in 0..shown.container_count() {
        if !has_ended(listed_in(shown, number)) {
            return false;
        }
    }
    true
}

/// Whether a pod of which a tick shows this is over.
fn is_over(shown: Option<&PodObs>) -> bool
    ensures { result ≡ is_over (option_map (λ p. p.now) shown.entry) }
{
    match shown {
        None => true,
        Some(shown) => have_ended(shown),
    }
}

/// Whether the pod of the number is over in the tick: its containers have all ended, or it is not present.
pub(crate) fn is_over_in(pod: usize, tick: &TickObs) -> bool
    ensures { result ≡ is_over_in pod tick.now }
{
    match tick.pods.as_slice().get(pod) {
        None => true,
        Some(shown) => is_over(shown.as_ref()),
    }
}
