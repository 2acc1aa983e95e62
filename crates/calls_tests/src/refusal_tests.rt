//! Memory that is refused to an update in the gate ends a replay, and nothing is written.

ghost use Rattle.std.specs.Prelude.{◌<◌, ◌≤◌};
ghost use Rattle.worker_count.specs.rule.Limit.{most_workers};

use crate::refusal::Refusal;
use crate::stretches::LongTrace;
use crate::test_gate::TestGate;
use kubelet_replay::{Format, MemSink, MemSource, RunFault, replay_in};
use std::alloc::AllocGlobal;
use std::process::Abort;
use std::sync::Wait;
use std::test::Fail;
use std::thread::Threads;
use std::time::Clock;

/// A pod is evicted in two of its ticks.
const TRACE: LongTrace = LongTrace {
    pods: 20,
    ticks: 60,
    short: &[15, 44],
    pause: 0,
    arrives: None,
    goes: None,
};

/// Refuses memory to the update that comes after so many, in a replay by this many workers, 1 to 64.
fn expect_refused<H: Abort + AllocGlobal + Clock + Threads + Wait + Sync>(
    rt: &H,
    text: &str,
    workers: usize,
    updates: u64,
) -> Result<(), Fail>
    requires some { 0 < workers }
    requires most { workers ≤ most_workers }
{
    let refusal = Refusal::new(updates);
    let gate = TestGate::<H>::of_refusal(&refusal);
    let mut room = vec![in rt.alloc(); 0u8; 4096]?;
    let mut input = MemSource::new(text.as_bytes(), 4096);
    let mut output = MemSink::new(&mut room, 4096);
    let format = Format::Extended;
    let answer = replay_in(rt, format, &mut input, &mut output, workers, &gate);
    assert_eq!(rt;
        answer,
        Err(RunFault::OutOfMemory),
        "{workers} workers, behind {updates} updates"
    );
    assert!(rt;
        output.written().is_empty(),
        "something is written: {workers} workers, behind {updates} updates"
    );
    Ok(())
}

// The first update, one amid a round, and the last.
#[test]
fn refused_update_ends_a_replay(rt: HostRuntime) -> Result<(), Fail> {
    let text = TRACE.text(rt.alloc())?;
    let last = TRACE.updates().saturating_sub(1);
    for workers in [1usize, 2, 64] {
        expect_refused(&rt, text.as_str(), workers, 0)?;
        expect_refused(&rt, text.as_str(), workers, 600)?;
        expect_refused(&rt, text.as_str(), workers, last)?;
    }
    Ok(())
}
