//! How another crate calls the replay: the text of a trace in, its report out, from memory to memory, and each refusal
//! matched. It takes no handle but the allocator, and never waits: one thread applies the rules, pod after pod.

ghost use Rattle.std.specs.Prelude.{◌≡◌, IfErr, IfOk};
ghost use Rattle.kubelet_replay.specs.rule.Run.{IsReportOfText};
ghost use Rattle.calls_tests.specs.state.Why.{no_report, IsWhy};

use kubelet_replay::{MemSink, MemSource, RunFault, replay_play};
use std::alloc::Global;
use thiserror::Error;
use trace::LineFault;

/// This many bytes are read or written in one call.
const STEP: usize = 64 << 10;

/// Why a text has no report.
#[derive(Clone, Copy, Debug, PartialEq, Eq, Error)]
pub enum NoReport {
    /// It is no trace: its first faulty line, and what is wrong with that.
    #[error("{0}")]
    Faulty(LineFault),
    /// It has more than 64 MiB.
    #[error("the text is too long")]
    TooLong,
    /// Its report is longer than there is room for.
    #[error("there is no room for the report")]
    NoRoom,
    /// Memory was refused.
    #[error("out of memory")]
    OutOfMemory,
    /// A call of the reader failed, which no call of one over memory does.
    #[error("read failed")]
    Unread,
}

/// What a refusal of the replay says of a text in memory.
fn no_report(fault: RunFault) -> NoReport
    ensures { result ≡ no_report fault }
{
    match fault {
        RunFault::Line(fault) => NoReport::Faulty(fault),
        RunFault::TooLong => NoReport::TooLong,
        RunFault::Write => NoReport::NoRoom,
        RunFault::OutOfMemory => NoReport::OutOfMemory,
        RunFault::Read => NoReport::Unread,
    }
}

/// The report of a trace, of at most `room` bytes.
pub fn report_of(alloc: Global, trace: &[u8], room: usize) -> Result<Vec<u8>, NoReport>
    ensures ok { IfOk result (λ report. IsReportOfText trace.now report.items) }
    ensures err { IfErr result (IsWhy trace.now) }
{
    let Ok(mut buffer) = vec![in alloc; 0u8; room] else {
        return Err(NoReport::OutOfMemory);
    };
    let mut input = MemSource::new(trace, STEP);
    let mut output = MemSink::new(&mut buffer, STEP);
    if let Err(fault) = replay_play(alloc, &mut input, &mut output, 1, &[]) {
        return Err(no_report(fault));
    }
    match Vec::from_slice(alloc, output.written()) {
        Ok(report) => Ok(report),
        Err(_) => Err(NoReport::OutOfMemory),
    }
}
