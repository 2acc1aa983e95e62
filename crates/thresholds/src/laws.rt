//! What is true of every threshold, for every list of samples. The functions do nothing; their
//! contracts are the laws.

ghost use Rattle.thresholds.specs.state.Laws as laws;

/// A threshold that is due is active.
pub fn due_is_active()
    ensures { laws.DueIsActive }
{}

/// A hard threshold, whose grace period is 0, is due exactly when it is active.
pub fn hard_is_due_when_active()
    ensures { laws.HardIsDueWhenActive }
{}

/// Without a reclaim a threshold is active exactly when the last value is below its limit.
pub fn no_reclaim_is_below_now()
    ensures { laws.NoReclaimIsBelowNow }
{}

/// After one more sample a threshold is active exactly when the new value is below the limit, or it
/// was active and the new value is below the limit plus the reclaim.
pub fn active_goes_on()
    ensures { laws.ActiveGoesOn }
{}

/// An active threshold has been active since exactly one moment, and one that is not active since none.
pub fn one_active_since()
    ensures { laws.OneActiveSince }
{}
