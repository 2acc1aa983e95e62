//! What the definitions of causes imply, for every container and every list of ticks. The functions do nothing; their
//! contracts are the laws.
ghost use Rattle.probe_causes.specs.state.Laws as laws;

/// A kill has exactly one list of failures, as many as the threshold allows, and follows from it.
pub fn kill_failures()
    ensures one { laws.OneKill }
    ensures follows { laws.KillFollows }
    ensures as_many { laws.AsManyAsAllowed }
    ensures some { laws.SomeKill }
{}

/// Each moment of a list of last results is that of a result that belongs and has the outcome.
pub fn in_words()
    ensures { laws.InWords }
{}

/// An instance with a readiness probe that becomes ready has exactly one list of successes, and is ready by it.
pub fn ready_successes()
    ensures one { laws.OneReady }
    ensures some { laws.SomeReady }
    ensures follows { laws.ReadyFollows }
{}

/// An instance that is no longer ready has exactly one list of failures, and is not ready by it.
pub fn unready_failures()
    ensures one { laws.OneUnready }
    ensures some { laws.SomeUnready }
    ensures follows { laws.UnreadyFollows }
{}

/// The first success of a startup probe has exactly one number, and startup has passed by it.
pub fn startup_success()
    ensures one { laws.OneSuccess }
    ensures follows { laws.PassFollows }
    ensures by_last { laws.PassesByLast }
    ensures one_moment { laws.OnePassMoment }
{}
