//! What a tick shows of a node.

ghost use Rattle.std.specs.Prelude.{◌≡◌};
ghost use Rattle.observations.specs.state.Observations.{seen_of};

use crate::pod::PodObs;
use lists::Sequence;
use quantity::Quantity;
use signals::BySignal;
use state_diff::Seen;

/// One tick. A pod that is present and of which it has no entry lists none of its containers.
#[derive(Drop)]
pub struct TickObs {
    /// The moment, in seconds, below [`quantity::END_OF_TIME`] and later than the last tick's.
    pub at: u64,
    /// For each pod that has arrived, by number, what is shown of it; none of one that is gone.
    pub pods: Sequence<Option<PodObs>>,
    /// The values of the node's signals, where the tick has one.
    pub signals: BySignal<Option<Quantity>>,
    /// The values of the file system signals after space was reclaimed, where the tick has one.
    pub after_reclaim: BySignal<Option<Quantity>>,
    /// Whether the tick is a sync tick, in which the node evaluates its signals. (This project's extended format; each
    /// tick is one, unless its line denies it.)
    pub judged: bool,
}

/// What the tick lists of a container of a pod, both by number.
pub fn seen_of(tick: &TickObs, pod: usize, container: usize) -> Option<Seen>
    ensures { result ≡ seen_of tick.now pod container }
{
    let shown = tick.pods.as_slice().get(pod)?;
    let shown = shown.as_ref()?;
    let observed = shown.container(container)?;
    observed.seen
}
