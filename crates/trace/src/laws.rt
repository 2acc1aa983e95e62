//! What the definition of a trace implies, in the words of the format. The functions do nothing;
//! their contracts are the laws.
ghost use Rattle.trace.specs.state.Laws as laws;

/// A text is rejected exactly with the fault of its first line that has one, or after its last line if no line counts.
pub fn first_fault()
    ensures { laws.FirstFault }
{}

/// A text has a trace exactly if no line has a fault and some line counts; the lines give the trace.
pub fn whole_trace()
    ensures { laws.WholeTrace }
{}

/// The first lines lead to one result at most, and at most one line has the first fault.
pub fn one_fault()
    ensures { laws.OneFault }
{}

/// A line's fault is that of the first check that it fails, in the order in which a line is checked.
pub fn first_check()
    ensures { laws.FirstCheck }
{}

/// A line that passes all its checks adds its node, its pod, that a pod is gone, or its tick, to what is past.
pub fn all_checks()
    ensures { laws.AllChecks }
{}

/// The kinds of fault that each check of a line answers.
pub fn kinds_of_checks()
    ensures { laws.KindsOfChecks }
{}

/// Which entries of a tick line name a pod or a container that isn't known.
pub fn strangers()
    ensures { laws.Strangers }
{}

/// What a tick shows of a probe is the result that its entry gives, wherever the result is.
pub fn results_shown()
    ensures { laws.ResultsShown }
{}

/// What a tick shows of a container is what its line lists, wherever the listing is.
pub fn listings_shown()
    ensures { laws.ListingsShown }
{}

/// What a tick shows of a pod's use is the usage of the pod's entry, wherever the entry is.
pub fn usage_shown()
    ensures { laws.UsageShown }
{}

/// A tick shows that a pod has no sample exactly if the text is of version 3, the pod's entry marks it so, and no
/// sample came with it.
pub fn unsampled_shown()
    ensures { laws.UnsampledShown }
{}

/// A tick shows that a pod is being deleted exactly if the text is of version 3 and the pod's entry marks it so.
pub fn deleting_shown()
    ensures { laws.DeletingShown }
{}

/// A tick is no sync tick exactly if the text is of version 3 and the line marks it so.
pub fn judged_shown()
    ensures { laws.JudgedShown }
{}

/// The node exempts a pod from eviction exactly if the text is of version 3 and the pod's line marks it so.
pub fn spared_said()
    ensures { laws.SparedSaid }
{}

/// A tick shows that the node has ended a pod, and why, exactly if the text is of version 3 and the pod's entry reports
/// it.
pub fn failed_shown()
    ensures { laws.FailedShown }
{}

/// What a tick shows of the node's signals is what its line has of them.
pub fn signals_shown()
    ensures { laws.SignalsShown }
{}

/// A tick is rejected as Backwards exactly if the listing of some container may not come after all its earlier ones.
pub fn backwards_listing()
    ensures { laws.BackwardsListing }
{}

/// What the standard format accepts has the same meaning in the extended one.
pub fn standard_is_extended()
    ensures { laws.StandardIsExtended }
{}

/// No text has a fault because an allocation failed.
pub fn never_memory()
    ensures { laws.NeverMemory }
{}
