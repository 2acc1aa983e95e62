//! What is true of the containers of every pod. The functions do nothing; their contracts are the laws.
ghost use Rattle.phase_causes.specs.state.Laws as laws;

/// The containers of a pod have one case, and from it the phase follows. That there is one is what `phase_case`
/// ensures.
pub fn phase_case()
    ensures one { laws.OnePhaseCase }
    ensures phase { laws.PhaseFollows }
{}
