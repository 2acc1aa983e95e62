//! Laws of the delays, for every list of exits.

ghost use Rattle.restarts.specs.state.Laws as laws;

/// Every list of exits has a delay, and only one.
pub fn every_list_has_one_delay()
    ensures { laws.EveryListHasOneDelay }
{}

/// A delay is 0, or one of 10, 20, 40, 80, 160 and 300 s, or the maximum where that is less.
pub fn delay_is_one_of_seven()
    ensures { laws.DelayIsOneOfSeven }
{}

/// After a run of at least 600 s the delay is 0.
pub fn long_run_resets()
    ensures { laws.LongRunResets }
{}

/// From one exit to the next the delay does not fall, unless the run between was at least 600 s.
pub fn delay_does_not_fall()
    ensures { laws.DelayDoesNotFall }
{}

/// A delay that is not 0 doubles at the next exit, up to the maximum, unless the run between was
/// at least 600 s.
pub fn delay_doubles()
    ensures { laws.DelayDoubles }
{}

/// The back-off's state depends only on the exits from the last run of at least 600 s on.
pub fn long_run_forgets()
    ensures { laws.LongRunForgets }
{}
