//! The report of a node.

use crate::nodes::take_rest;
use crate::recorded::is_report;
use crate::seen::{Saw, Unprepared};
use node_report::report_text;
use std::alloc::Global;
use std::sync::ledger::Ledger;
use tick_round::{Node, Summary};

/// What was seen, if the report is that of the trace.
fn whole(report: &str, saw: Saw) -> Saw {
    if is_report(report) {
        saw
    } else {
        Saw::Wrong("the report is another")
    }
}

fn told_again(alloc: Global, summary: &Summary<'_>) -> Saw {
    let saw = Saw::Refused("the same summary has the whole report");
    match report_text(alloc, summary) {
        Ok(report) => whole(report.as_str(), saw),
        Err(_) => Saw::Wrong("the second call is refused"),
    }
}

fn tell_twice(alloc: Global, summary: &Summary<'_>) -> Saw {
    match report_text(alloc, summary) {
        Ok(report) => whole(report.as_str(), Saw::Done),
        Err(_) => told_again(alloc, summary),
    }
}

/// `report_text`.
pub(crate) fn report<U: Ledger, E: Ledger, O: Ledger>(
    alloc: Global,
    node: &mut Node<U, E, O>,
) -> Result<Saw, Unprepared> {
    take_rest(alloc, node)?;
    let summary = node.summary()?;
    Ok(tell_twice(alloc, &summary))
}
