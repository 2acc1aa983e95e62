//! What the definitions of instances imply. The functions do nothing; their contracts are the laws.
ghost use Rattle.state_diff.specs.state.Laws as laws;

/// Whatever is listed, there is a newest attempt or none is listed, and an instance has a state, a start or
/// none, and an exit with its code and its run, or none.
pub fn some_of_each()
    ensures { laws.SomeOfEach }
{}

/// There is at most one newest attempt, and an instance has at most one start, exit, exit code and
/// state.
pub fn one_of_each()
    ensures { laws.OneOfEach }
{}

/// Where each listing was acceptable, an instance does not start after its exit.
pub fn starts_before_exit()
    ensures { laws.StartsBeforeExit }
{}

/// An exit stays where it is, and its instance stays exited, whatever is listed later.
pub fn exited_stays_exited()
    ensures { laws.ExitedStaysExited }
{}

/// The newest attempt never falls.
pub fn newest_never_falls()
    ensures { laws.NewestNeverFalls }
{}

/// An acceptable listing is of the newest attempt from then on.
pub fn acceptable_is_newest()
    ensures { laws.AcceptableIsNewest }
{}

/// The test that computes decides which listings are acceptable.
pub fn acceptable_computes()
    ensures { laws.AcceptableComputes }
{}
