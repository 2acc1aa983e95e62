//! Workers take many ticks of a pod at once, and what they make of a trace is what its ticks make one after the other.

use crate::replays::{report_by_ticks, report_by_workers};
use crate::stretches::LongTrace;
use crate::tally::Tally;
use crate::test_gate::TestGate;
use std::alloc::AllocGlobal;
use std::process::Abort;
use std::sync::Wait;
use std::test::Fail;
use std::thread::Threads;
use std::time::Clock;

/// Four of its rounds end by a tick in which memory is short, and two others with as many updates as a round takes.
const LONG: LongTrace = LongTrace {
    pods: 60,
    ticks: 2_000,
    short: &[700, 1_100, 1_101, 1_900],
    pause: 0,
    arrives: None,
    goes: None,
};

/// Memory is short in two ticks in which a pod is evicted.
const SHORT: LongTrace = LongTrace {
    pods: 20,
    ticks: 60,
    short: &[15, 44],
    ..LONG
};

/// How many evictions a report tells of.
fn evictions_in(report: &str) -> usize {
    let mut count = 0usize;
    for line in report.lines() {
        if line.starts_with("eviction ") {
            count = count.saturating_add(1);
        }
    }
    count
}

#[test]
fn updates_overlap_where_none_waits(rt: HostRuntime) -> Result<(), Fail> {
    let text = LONG.text(rt.alloc())?;
    let tally = Tally::new(rt.alloc())?;
    let gate = TestGate::<HostRuntime>::of_tally(&tally, false);
    let report = report_by_workers(&rt, text.as_str(), 4, &gate)?;
    assert!(rt;
        tally.overlaps() > 2,
        "{} updates overlap",
        tally.overlaps()
    );
    assert_eq!(rt; tally.updates(), Some(LONG.updates()));
    assert_eq!(rt; evictions_in(report.as_str()), LONG.short.len());
    let plain = TestGate::<HostRuntime>::plain();
    let by_one = report_by_workers(&rt, text.as_str(), 1, &plain)?;
    assert!(rt;
        report == by_one,
        "four workers tell something else than one"
    );
    let by_ticks = report_by_ticks(rt.alloc(), text.as_str())?;
    assert!(rt;
        report == by_ticks,
        "rounds of several ticks tell something else than ticks"
    );
    Ok(())
}

/// Traces of few updates, each with how many evictions it has: evictions divide the ticks, a pod arrives amid a round,
/// one goes, both at once, a round goes on while evictions pause, and all pods are evicted in ticks that follow each
/// other. `traces/stretches` of `bench/cases` has the same with their reports, and so many updates that threads start.
const TRACES: [(LongTrace, usize); 6] = [
    (SHORT, 2),
    (
        LongTrace {
            arrives: Some(30),
            ..SHORT
        },
        2,
    ),
    (
        LongTrace {
            goes: Some(30),
            ..SHORT
        },
        2,
    ),
    (
        LongTrace {
            arrives: Some(30),
            goes: Some(30),
            ..SHORT
        },
        2,
    ),
    // of these ticks the second and the third are within a minute of the first
    (
        LongTrace {
            short: &[15, 17, 20, 21, 44],
            pause: 60,
            ..SHORT
        },
        3,
    ),
    // nobody is left from the fourth of these ticks on
    (
        LongTrace {
            pods: 3,
            short: &[15, 16, 17, 18, 19],
            ..SHORT
        },
        3,
    ),
];

/// However many workers run, and all of them do, each update of the trace passes the gate once, and the report is the
/// report of its ticks one after the other, with this many evictions.
fn expect_alike<H: Abort + AllocGlobal + Clock + Threads + Wait + Sync>(
    rt: &H,
    trace: LongTrace,
    evictions: usize,
) -> Result<(), Fail> {
    let text = trace.text(rt.alloc())?;
    let by_ticks = report_by_ticks(rt.alloc(), text.as_str())?;
    assert_eq!(rt; evictions_in(by_ticks.as_str()), evictions);
    for workers in [1usize, 2, 4, 64] {
        let tally = Tally::new(rt.alloc())?;
        let gate = TestGate::<H>::of_tally(&tally, true);
        let report = report_by_workers(rt, text.as_str(), workers, &gate)?;
        assert_eq!(rt; report.as_str(), by_ticks.as_str(), "{workers} workers");
        assert_eq!(rt; tally.updates(), Some(trace.updates()), "{workers} workers");
    }
    Ok(())
}

#[test]
fn each_update_passes_the_gate_once(rt: HostRuntime) -> Result<(), Fail> {
    for (trace, evictions) in TRACES {
        expect_alike(&rt, trace, evictions)?;
    }
    Ok(())
}
