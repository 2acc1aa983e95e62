//! What is true of since when, for every list of samples and of observations. The functions do nothing; their contracts
//! are the laws.
ghost use Rattle.signal_causes.specs.state.Laws as laws;

/// A threshold has been due since exactly one moment, if it is due, and since none, if it isn't.
pub fn due_since()
    ensures one { laws.OneDueSince }
    ensures some { laws.DueHasSince }
{}

/// A condition was last met at one moment at most.
pub fn last_met()
    ensures { laws.OneLastMet }
{}
