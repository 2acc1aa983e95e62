//! What the definition of a report implies. The functions do nothing; their contracts are the laws.

ghost use Rattle.node_report.specs.state.Laws as laws;

/// There is a report of a node's ticks, where they show none but the pods that there are, and the numbers of the
/// probes of each container are in their ranges.
pub fn some_report()
    ensures { laws.SomeReport }
{}

/// There is at most one report: the definition leaves no choice.
pub fn one_report()
    ensures { laws.OneReport }
{}
