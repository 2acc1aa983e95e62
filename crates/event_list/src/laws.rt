//! What the definition of a node's events implies. The functions do nothing; their contracts are the laws.

ghost use Rattle.event_list.specs.state.Laws as laws;

/// Ticks with their evictions have a list of events, where they show none but the pods that there are, and the
/// numbers of the probes of each container are in their ranges.
pub fn some_list_of_events()
    ensures { laws.SomeListOfEvents }
{}

/// Ticks with their evictions have at most one list of events.
pub fn one_list_of_events()
    ensures { laws.OneListOfEvents }
{}

/// A tick has the event `evicted` just when the list of evictions has that eviction at the tick: the events and the
/// list name the same pod for the same threshold.
pub fn evicted_as_listed()
    ensures { laws.EvictedAsListed }
{}
