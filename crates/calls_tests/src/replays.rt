//! Replays of texts.

ghost use Rattle.std.specs.Prelude.{◌<◌, ◌≤◌};
ghost use Rattle.worker_count.specs.rule.Limit.{most_workers};

use crate::scenario::Scenario;
use kubelet_replay::{Format, Gate, MemSink, MemSource, replay, replay_in, replay_play_in};
use std::alloc::{AllocGlobal, Global};
use std::str::from_utf8;
use std::sync::Wait;
use std::test::Fail;
use std::thread::Threads;

/// No report of these tests is longer.
const ROOM: usize = 1 << 20;

/// Replays the scenario's trace.
pub(crate) fn replay_text<H: AllocGlobal + Threads + Wait + Sync, G: Gate>(
    rt: &H,
    scenario: &Scenario<'_, G>,
) -> Result<(), Fail> {
    let mut room = vec![in rt.alloc(); 0u8; ROOM]?;
    let mut input = MemSource::new(scenario.text.as_bytes(), 4096);
    let mut output = MemSink::new(&mut room, 4096);
    replay(rt, &mut input, &mut output, scenario.workers, scenario.gate)?;
    Ok(())
}

/// The report of a trace in the extended format, which this many workers, 1 to 64, replay.
pub(crate) fn report_by_workers<H: AllocGlobal + Threads + Wait + Sync, G: Gate>(
    rt: &H,
    text: &str,
    workers: usize,
    gate: &G,
) -> Result<String, Fail>
    requires some { 0 < workers }
    requires most { workers ≤ most_workers }
{
    let mut room = vec![in rt.alloc(); 0u8; ROOM]?;
    let mut input = MemSource::new(text.as_bytes(), 4096);
    let mut output = MemSink::new(&mut room, 4096);
    replay_in(rt, Format::Extended, &mut input, &mut output, workers, gate)?;
    Ok(String::from_str(rt.alloc(), from_utf8(output.written())?)?)
}

/// The report of a trace in the extended format, which one worker plays tick by tick.
pub(crate) fn report_by_ticks(alloc: Global, text: &str) -> Result<String, Fail> {
    let mut room = vec![in alloc; 0u8; ROOM]?;
    let mut input = MemSource::new(text.as_bytes(), 4096);
    let mut output = MemSink::new(&mut room, 4096);
    replay_play_in(alloc, Format::Extended, &mut input, &mut output, 1, &[])?;
    Ok(String::from_str(alloc, from_utf8(output.written())?)?)
}
