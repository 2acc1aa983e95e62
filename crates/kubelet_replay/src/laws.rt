//! What the definition of a report implies. The functions do nothing; their contracts are the laws.

ghost use Rattle.kubelet_replay.specs.state.Laws as laws;

/// There is a report of every text that is a trace.
pub fn some_report_of_text()
    ensures { laws.SomeReportOfText }
{}

/// There is at most one report: the definition leaves no choice.
pub fn one_report()
    ensures { laws.OneReport }
{}
