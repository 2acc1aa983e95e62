//! What the definitions of causes imply, for every container and every list of ticks. The functions do nothing; their
//! contracts are the laws.
ghost use Rattle.container_causes.specs.state.Laws as laws;

/// An instance that is to be killed has exactly one list of failures for it, and is to be killed by it.
pub fn kill_failures()
    ensures some { laws.SomeKillFailures }
    ensures one { laws.OneListOfKillFailures }
    ensures follows { laws.KillFollows }
{}

/// The results that make an instance ready, or unready, are one list.
pub fn readiness_results()
    ensures successes { laws.OneListOfSuccesses }
    ensures failures { laws.OneListOfFailures }
{}

/// An instance whose startup probe passes has the number of its success.
pub fn startup_success()
    ensures { laws.SomeStartupSuccess }
{}

/// The exits of a container have exactly one count, from which the delay follows, and there is one last exit.
pub fn exits()
    ensures one { laws.OneCounted }
    ensures some { laws.SomeCounted }
    ensures delay { laws.DelayFollows }
    ensures last { laws.OneLastExit }
{}
