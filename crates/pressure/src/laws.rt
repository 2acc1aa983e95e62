//! What is true of every condition, for every list of observations. The functions do nothing; their
//! contracts are the laws.

ghost use Rattle.pressure.specs.state.Laws as laws;

/// With a period of 0 a condition is true exactly when it is met now.
pub fn no_period_is_met_now()
    ensures { laws.NoPeriodIsMetNow }
{}

/// A condition that is no longer met stays true until the period has passed since it was last met, and
/// is then false.
pub fn true_for_the_period()
    ensures { laws.TrueForThePeriod }
{}

/// There is exactly one moment since which a condition has been the same.
pub fn one_since()
    ensures { laws.OneSince }
{}
