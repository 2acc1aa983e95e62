//! What the definitions of a steps file imply. The functions do nothing; their contracts are the laws.

ghost use Rattle.round_steps.specs.state.Laws as laws;

/// A line spells one step at most.
pub fn one_spelling()
    ensures { laws.OneSpelling }
{}

/// Lines give one list of steps, or have one first fault, and never both.
pub fn one_answer()
    ensures { laws.OneAnswer }
{}
