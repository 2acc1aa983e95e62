//! What is true of every node line. The functions do nothing; their contracts are
//! the laws.

ghost use Rattle.node_lines.specs.state.Laws as laws;

/// The default thresholds apply if there is no `evictionHard`.
pub fn defaults_where_none_is_written()
    ensures { laws.DefaultsWhereNoneIsWritten }
{}

/// If there is an `evictionHard`, each hard threshold is one of its own; each soft threshold is one of `evictionSoft`,
/// with its written grace. Each has its written reclaim.
pub fn thresholds_are_as_written()
    ensures hard { laws.HardIsAsWritten }
    ensures soft { laws.SoftIsAsWritten }
{}

/// Every limit that is written for a signal sets its threshold, with the signal's reclaim and its grace, except a
/// percentage of 0 or 100; and each threshold comes from such a limit, or from a default if there is no `evictionHard`.
pub fn thresholds_are_those_written()
    ensures every_limit { laws.EveryLimitSetsItsThreshold }
    ensures every_threshold { laws.EveryThresholdHasItsLimit }
{}

/// A percentage of 0 or 100 sets no threshold.
pub fn off_sets_none()
    ensures hard { laws.OffSetsNoHard }
    ensures soft { laws.OffSetsNoSoft }
{}

/// A soft threshold without its grace is the fault only where every field is accepted.
pub fn missing_grace_comes_last()
    ensures { laws.MissingGraceComesLast }
{}
