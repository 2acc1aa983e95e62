//! What is true of every node, for every list of ticks. The functions do nothing; their contracts
//! are the laws.

ghost use Rattle.node_signals.specs.state.Laws as laws;

/// The node acts on at most one threshold in a tick.
pub fn one_served()
    ensures { laws.OneServed }
{}

/// The threshold that is acted on is due, and the node has not freed enough for it by itself.
pub fn served_is_due()
    ensures { laws.ServedIsDue }
{}

/// A condition is true after any ticks or it isn't, and has been so since some moment.
pub fn some_condition()
    ensures { laws.SomeCondition }
{}

/// Every tick has a list of events.
pub fn some_list_of_node_events()
    ensures { laws.SomeListOfNodeEvents }
{}

/// The events of a tick are determined, with their order.
pub fn one_list_of_node_events()
    ensures { laws.OneListOfNodeEvents }
{}
