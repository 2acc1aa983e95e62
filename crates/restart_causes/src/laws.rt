//! What is true of every list of exits, and of all policies and rules. The functions do nothing; their contracts are
//! the laws.
ghost use Rattle.restart_causes.specs.state.Laws as laws;

/// Exits have exactly one count, and the delay after the last of them follows from it.
pub fn exit_count()
    ensures some { laws.SomeExitCount }
    ensures one { laws.OneExitCount }
    ensures delay { laws.DelayFollows }
{}

/// The rule that decides is the first that matches, and a restart follows by what decides.
pub fn decision()
    ensures first { laws.FirstMatches }
    ensures restart { laws.RestartFollows }
{}
