//! What the definition of a tick line implies, in the words of the format. The functions do nothing;
//! their contracts are the laws.
ghost use Rattle.tick_lines.specs.state.Laws as laws;

/// Each element of an array gives the entry, the listing or the result at its place, and there are no others.
pub fn in_order()
    ensures { laws.InOrder }
{}

/// An entry, a listing and a result each name their pod or container by the text in one field.
pub fn texts_said()
    ensures { laws.TextsSaid }
{}

/// A line has for a signal exactly the quantity that its object has under the signal's name.
pub fn samples_said()
    ensures { laws.SamplesSaid }
{}

/// An entry has for a use exactly the quantity that its object has under the use's name.
pub fn usage_said()
    ensures { laws.UsageSaid }
{}

/// An entry marks its pod as unsampled exactly if its member `unsampled` is true, and has nothing of it exactly if the
/// member is missing, null or false.
pub fn unsampled_said()
    ensures { laws.UnsampledSaid }
{}

/// An entry marks its pod as being deleted exactly if its member `deleting` is true, and has nothing of it exactly if
/// the member is missing, null or false.
pub fn deleting_said()
    ensures { laws.DeletingSaid }
{}

/// An entry gives a reason for which the node has ended its pod exactly if its member `failed` is a reason, and has
/// none exactly if the member is missing or null.
pub fn failed_said()
    ensures { laws.FailedSaid }
{}

/// An entry gives the statuses of conditions exactly if its member `conditions` is an object of true, false and null,
/// and has none exactly if the member is missing or null.
pub fn conditions_said()
    ensures { laws.ConditionsSaid }
{}

/// A line marks the tick as no sync tick exactly if its member `judged` is false, and has nothing of it exactly if the
/// member is missing, null or true.
pub fn judged_said()
    ensures { laws.JudgedSaid }
{}

/// A line is rejected if it names a signal that it may not name.
pub fn only_signals()
    ensures { laws.OnlySignals }
{}

/// What a line, an entry, a listing and a result mean depends on the fields that the format names, and on no others.
pub fn only_their_fields()
    ensures { laws.OnlyTheirFields }
{}

/// A field with the value null counts as absent, whatever its name.
pub fn null_is_absent()
    ensures { laws.NullIsAbsent }
{}

/// Every fault of a tick line by itself is `Usage`.
pub fn one_kind()
    ensures { laws.OneKind }
{}
