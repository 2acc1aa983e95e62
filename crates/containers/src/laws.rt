//! What the definitions of a container imply, for every list of ticks. The functions do nothing; their
//! contracts are the laws.

ghost use Rattle.containers.specs.state.Laws as laws;

/// A container has a list of exits, whatever its listings are.
pub fn some_list_of_exits()
    ensures { laws.SomeListOfExits }
{}

/// There is a delay after the last of its exits.
pub fn some_delay()
    ensures { laws.SomeDelay }
{}

/// Each instance has a list of results.
pub fn some_list_of_results()
    ensures { laws.SomeListOfResults }
{}

/// A container has a view and a status, whatever its ticks are.
pub fn some_status()
    ensures { laws.SomeStatus }
{}

/// A container has at most one list of exits.
pub fn one_list_of_exits()
    ensures { laws.OneListOfExits }
{}

/// An instance has at most one list of results.
pub fn one_list_of_results()
    ensures { laws.OneListOfResults }
{}

/// What is restarted is the newest instance, and it has exited.
pub fn restarts_the_newest()
    ensures { laws.RestartsTheNewest }
{}

/// An instance is to be killed at one tick at most, and for one cause.
pub fn killed_once()
    ensures { laws.KilledOnce }
{}

/// A tick makes events of a container, where the numbers of its probes are in their ranges.
pub fn some_list_of_events()
    ensures { laws.SomeListOfEvents }
{}

/// The events of a tick are determined.
pub fn one_list_of_events()
    ensures { laws.OneListOfEvents }
{}
