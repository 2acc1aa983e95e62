//! What is true of the evictions of every node. The functions do nothing; their contracts are the
//! laws.

ghost use Rattle.eviction.specs.state.Laws as laws;

/// A pod has a status, whenever it is evicted and whatever its ticks are. (A status shows the
/// containers in a vector, so that there are fewer than 2^63 of them.)
pub fn some_status()
    ensures { laws.SomeStatus }
{}

/// Every list of ticks has a list of evictions.
pub fn some_replay()
    ensures { laws.SomeReplay }
{}

/// A list of ticks has one list of evictions at most.
pub fn one_replay()
    ensures { laws.OneReplay }
{}

/// In each tick the rules choose a pod, or none.
pub fn some_choice()
    ensures { laws.SomeChoice }
{}

/// In a tick the rules have one choice at most.
pub fn one_choice()
    ensures { laws.OneChoice }
{}

/// If the trace reports whom the node evicted, the rules evict nobody.
pub fn recorded_alone()
    ensures { laws.RecordedAlone }
{}

/// No pod is evicted by two ticks.
pub fn evicted_once()
    ensures { laws.EvictedOnce }
{}

/// The pod that a tick evicts is present, and had not ended before.
pub fn evicted_pod_lived()
    ensures { laws.EvictedPodLived }
{}

/// A tick that evicts a pod acts on one threshold. That one is due and not reclaimed, and the order is of its signal
/// and kind, at the tick's moment.
pub fn served_alone()
    ensures { laws.ServedAlone }
{}

/// Between two evictions the node's pause passes, or the first one's pod ends or goes where the pause ends with it.
pub fn paused_between()
    ensures { laws.PausedBetween }
{}
