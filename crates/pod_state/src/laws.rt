//! What the definitions of phases, conditions, container statuses and events imply. The functions do nothing;
//! their contracts are the laws.
ghost use Rattle.pod_state.specs.state.Laws as laws;

/// A pod has exactly one raw phase after ticks of which each container has a view.
pub fn one_raw_phase()
    ensures { laws.OneRawPhase }
{}

/// There is at most one phase.
pub fn one_phase()
    ensures { laws.OnePhase }
{}

/// A pod that has succeeded or failed keeps its phase.
pub fn ended_stays_ended()
    ensures { laws.EndedStaysEnded }
{}

/// The moment of a condition's last transition is the moment of a tick that changed it, or of the first tick.
pub fn transitions_are_changes()
    ensures { laws.TransitionsAreChanges }
{}

/// There is a status of a pod, whatever its ticks are, and one of each of its containers.
pub fn some_status()
    ensures { laws.SomeStatus }
{}

/// There is at most one status of a pod, and of each of its containers.
pub fn one_status()
    ensures { laws.OneStatus }
{}

/// A pod that has ended makes no events.
pub fn no_events_after_the_end()
    ensures { laws.NoEventsAfterTheEnd }
{}

/// There is a list of a pod's events at a tick, where the numbers of its containers' probes are in their ranges.
pub fn some_list_of_events()
    ensures { laws.SomeListOfEvents }
{}

/// There is at most one list of a pod's events at a tick.
pub fn one_list_of_events()
    ensures { laws.OneListOfEvents }
{}
