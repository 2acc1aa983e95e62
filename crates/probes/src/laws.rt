//! What the definitions of probes imply, for every container and every list of ticks. The functions
//! do nothing; their contracts are the laws.
ghost use Rattle.probes.specs.state.Laws as laws;

/// No instance is to be killed for two causes.
pub fn one_cause()
    ensures { laws.OneCause }
{}

/// A kill order remains, whatever results come later.
pub fn kill_order_stands()
    ensures { laws.KillOrderStands }
{}

/// A startup probe passes at most once, whatever results come later.
pub fn startup_passes_once()
    ensures { laws.StartupPassesOnce }
{}

/// There is exactly one list of the ticks that count.
pub fn counted_ticks()
    ensures some { laws.SomeCounted }
    ensures one { laws.OneCounted }
{}

/// An instance without a readiness probe is ready exactly where startup has passed.
pub fn ready_without_probe()
    ensures { laws.ReadyWithoutProbe }
{}
