//! The replay of a trace, from its bytes to the bytes of its report.

ghost use Rattle.std.specs.Prelude.{◌≡◌, ◌+◌, ◌^◌, ◌<◌, ◌≤◌, IfOk, IfErr, OnOk, IsErrOf, string_bytes};
ghost use Rattle.node_config.specs.declared.node.Format.TheVariants.{Standard};
ghost use Rattle.worker_count.specs.rule.Limit.{most_workers};
ghost use Rattle.kubelet_replay.specs.rule.Run.{failed_reads, failed_writes, HasRead, IsReportIn, IsReportOfText};
ghost use Rattle.kubelet_replay.specs.state.Run.{read_fault_of, fault_of, text_or_fault, trace_or_fault};
ghost use Rattle.kubelet_replay.specs.state.Run.{report_or_fault, RefusesText, Refuses, IsWritten};
ghost use Rattle.kubelet_replay.specs.rule.Run.{IsRefusalIn, IsRefusal, IsCheckIn, IsCheckOfText, check_line, Writes};
ghost use Rattle.kubelet_replay.specs.rule.Run.{TakesWithin, IsReplayGated, Gates};
ghost use Rattle.kubelet_replay.specs.declared.fault.RunFault.TheVariants.{OutOfMemory};

use crate::fault::RunFault;
use crate::report::{report_by_steps, report_by_workers};
use replay_stream::{ReadAllFault, Sink, Source, read_all, write_all};
use std::alloc::{AllocError, Global};
use tick_round::{Gate, Spawner, Step};
use trace::{FaultKind, Format, LineFault, Trace, read_trace, read_trace_by_workers};

/// The greatest length of an input: 64 MiB.
const LONGEST_INPUT: usize = 67_108_864;

/// Why the input was not read.
fn read_fault_of(fault: ReadAllFault) -> RunFault
    ensures { result ≡ read_fault_of fault }
{
    match fault {
        ReadAllFault::Read => RunFault::Read,
        ReadAllFault::TooLong => RunFault::TooLong,
        ReadAllFault::OutOfMemory => RunFault::OutOfMemory,
    }
}

/// The text that was read, or why none was.
fn text_or_fault(read: Result<Vec<u8>, ReadAllFault>) -> Result<Vec<u8>, RunFault>
    ensures { result ≡ text_or_fault read }
{
    match read {
        Ok(text) => Ok(text),
        Err(fault) => Err(read_fault_of(fault)),
    }
}

fn read_text<R: Source>(alloc: Global, input: &mut R) -> Result<Vec<u8>, RunFault>
    requires { R.failures input.old < 2 ^ 63 }
    ensures ok { IfOk result (λ text. HasRead (R.left input.old) text.items) }
    ensures err { IfErr result (Refuses (R.left input.old)) }
    ensures taken { OnOk result (TakesWithin (R.left input.old) (R.left input.new)) }
    ensures memory { IsErrOf result OutOfMemory → TakesWithin (R.left input.old) (R.left input.new) }
    ensures counted { R.failures input.new ≡ R.failures input.old + failed_reads result }
{
    // A function that doesn't allocate decides what the answer is, so no fault can be reported as another.
    // (docs/decisions/program.md)
    text_or_fault(read_all(alloc, input, LONGEST_INPUT))
}

fn fault_of(fault: LineFault) -> RunFault
    ensures { result ≡ fault_of fault }
{
    match fault.kind {
        FaultKind::OutOfMemory => RunFault::OutOfMemory,
        _ => RunFault::Line(fault),
    }
}

/// The trace that was read, or why the text has none.
fn trace_or_fault(read: Result<Trace, LineFault>) -> Result<Trace, RunFault>
    ensures { result ≡ trace_or_fault read }
{
    match read {
        Ok(trace) => Ok(trace),
        Err(fault) => Err(fault_of(fault)),
    }
}

/// The text that was made, or a failed allocation.
fn report_or_fault(text: Result<String, AllocError>) -> Result<String, RunFault>
    ensures { result ≡ report_or_fault text }
{
    match text {
        Ok(text) => Ok(text),
        Err(_) => Err(RunFault::OutOfMemory),
    }
}

fn report_of_text_by_steps(
    alloc: Global,
    format: Format,
    text: &[u8],
    workers: usize,
    steps: &[Step],
) -> Result<String, RunFault>
    requires some { 0 < workers }
    requires most { workers ≤ most_workers }
    ensures ok { IfOk result (λ report. IsReportIn format text.now (string_bytes report)) }
    ensures err { IfErr result (RefusesText format text.now) }
{
    let trace = trace_or_fault(read_trace(alloc, format, text))?;
    report_or_fault(report_by_steps(alloc, trace, workers, steps))
}

fn report_of_text_by_workers<R: Spawner, G: Gate>(
    rt: &R,
    alloc: Global,
    format: Format,
    text: &[u8],
    workers: usize,
    gate: &G,
) -> Result<String, RunFault>
    requires some { 0 < workers }
    requires most { workers ≤ most_workers }
    ensures ok { IfOk result (λ report. IsReportIn format text.now (string_bytes report)) }
    ensures err { IfErr result (RefusesText format text.now) }
    ensures gated { OnOk result (IsReplayGated (G.left gate.now) format text.now) }
{
    let trace = trace_or_fault(read_trace_by_workers(rt, alloc, format, text, workers))?;
    report_or_fault(report_by_workers(rt, alloc, trace, workers, gate))
}

/// The line of a text that is a trace.
fn check_line(alloc: Global, pods: usize, ticks: usize) -> Result<String, AllocError>
    ensures { IfOk result (λ s. string_bytes s ≡ check_line pods ticks) }
{
    format!(in alloc; "ok pods={pods} ticks={ticks}\n")
}

fn check_of_text(alloc: Global, format: Format, text: &[u8]) -> Result<String, RunFault>
    ensures ok { IfOk result (λ line. IsCheckIn format text.now (string_bytes line)) }
    ensures err { IfErr result (RefusesText format text.now) }
{
    let trace = trace_or_fault(read_trace(alloc, format, text))?;
    let (pods, ticks) = (trace.pods.as_slice().len(), trace.ticks.as_slice().len());
    report_or_fault(check_line(alloc, pods, ticks))
}

fn write_text<W: Sink>(output: &mut W, text: &str) -> Result<(), RunFault>
    requires { W.failures output.old < 2 ^ 63 }
    ensures written { IsWritten (W.written output.old) (W.written output.new) text.now result }
    ensures counted { W.failures output.new ≡ W.failures output.old + failed_writes result }
{
    match write_all(output, text.as_bytes()) {
        Ok(()) => Ok(()),
        Err(_) => Err(RunFault::Write),
    }
}

/// Replays a trace and writes its report. This many workers, 1 to 64, update the pods of each round in threads of their
/// own and steal from each other, but no more than there are pods. A round is the ticks up to the next in which the
/// node acts on an eviction threshold, or until 32,768 updates wait: one for each tick of a pod. If no update waits in
/// the gate, only those workers run that are worth their start, one for 1,024 updates. The gate makes each update. The
/// workers share the lines of the text as well, except its first 64 KiB, in windows of at most 4 MiB. The report is
/// that of the rules applied by one thread, pod after pod, whatever the workers and the threads do. It may wait for
/// threads and for the lock of the book.
///
/// Reads the input to its end and makes the whole report before the first write. So nothing is written if the reader
/// fails (`Read`), the input has more than 64 MiB (`TooLong`), the text is no trace (`Line`, with its first faulty
/// line), or an allocation fails (`OutOfMemory`). If the writer fails or takes nothing (`Write`), a part of the report
/// from its beginning is written.
pub fn replay<H: AllocGlobal + Spawner, R: Source, W: Sink, G: Gate>(
    rt: &H,
    input: &mut R,
    output: &mut W,
    workers: usize,
    gate: &G,
) -> Result<(), RunFault>
    requires some { 0 < workers }
    requires most { workers ≤ most_workers }
    requires reads { R.failures input.old < 2 ^ 63 }
    requires writes { W.failures output.old < 2 ^ 63 }
    ensures ok { OnOk result (Writes IsReportOfText (R.left input.old) (W.written output.old) (W.written output.new)) }
    ensures err { IfErr result (IsRefusal IsReportOfText (R.left input.old) (W.written output.old)
        (W.written output.new)) }
    ensures memory { IsErrOf result OutOfMemory → TakesWithin (R.left input.old) (R.left input.new) }
    ensures gated { OnOk result (Gates (G.left gate.now) Standard (R.left input.old)) }
    ensures reads { R.failures input.new ≡ R.failures input.old + failed_reads result }
    ensures writes { W.failures output.new ≡ W.failures output.old + failed_writes result }
{
    replay_in(rt, Format::Standard, input, output, workers, gate)
}

/// Replays a trace in a format and writes its report, as [`replay`] does of one in the standard format.
pub fn replay_in<H: AllocGlobal + Spawner, R: Source, W: Sink, G: Gate>(
    rt: &H,
    format: Format,
    input: &mut R,
    output: &mut W,
    workers: usize,
    gate: &G,
) -> Result<(), RunFault>
    requires some { 0 < workers }
    requires most { workers ≤ most_workers }
    requires reads { R.failures input.old < 2 ^ 63 }
    requires writes { W.failures output.old < 2 ^ 63 }
    ensures ok { OnOk result (Writes (IsReportIn format) (R.left input.old) (W.written output.old)
        (W.written output.new)) }
    ensures err { IfErr result (IsRefusalIn format (IsReportIn format) (R.left input.old) (W.written output.old)
        (W.written output.new)) }
    ensures memory { IsErrOf result OutOfMemory → TakesWithin (R.left input.old) (R.left input.new) }
    ensures gated { OnOk result (Gates (G.left gate.now) format (R.left input.old)) }
    ensures reads { R.failures input.new ≡ R.failures input.old + failed_reads result }
    ensures writes { W.failures output.new ≡ W.failures output.old + failed_writes result }
{
    let text = read_text(rt.alloc(), input)?;
    let report = report_of_text_by_workers(rt, rt.alloc(), format, &text, workers, gate)?;
    write_text(output, report.as_str())
}

/// Replays a trace on one thread and writes its report, as [`replay`] does. Each tick is a round that is simulated for
/// this many workers, 1 to 64, by these steps, from their beginning; then each worker finishes what it has.
pub fn replay_play<R: Source, W: Sink>(
    alloc: Global,
    input: &mut R,
    output: &mut W,
    workers: usize,
    steps: &[Step],
) -> Result<(), RunFault>
    requires some { 0 < workers }
    requires most { workers ≤ most_workers }
    requires reads { R.failures input.old < 2 ^ 63 }
    requires writes { W.failures output.old < 2 ^ 63 }
    ensures ok { OnOk result (Writes IsReportOfText (R.left input.old) (W.written output.old) (W.written output.new)) }
    ensures err { IfErr result (IsRefusal IsReportOfText (R.left input.old) (W.written output.old)
        (W.written output.new)) }
    ensures memory { IsErrOf result OutOfMemory → TakesWithin (R.left input.old) (R.left input.new) }
    ensures reads { R.failures input.new ≡ R.failures input.old + failed_reads result }
    ensures writes { W.failures output.new ≡ W.failures output.old + failed_writes result }
{
    replay_play_in(alloc, Format::Standard, input, output, workers, steps)
}

/// Replays a trace in a format on one thread, with rounds that are simulated by steps, as [`replay_play`] does of one
/// in the standard format.
pub fn replay_play_in<R: Source, W: Sink>(
    alloc: Global,
    format: Format,
    input: &mut R,
    output: &mut W,
    workers: usize,
    steps: &[Step],
) -> Result<(), RunFault>
    requires some { 0 < workers }
    requires most { workers ≤ most_workers }
    requires reads { R.failures input.old < 2 ^ 63 }
    requires writes { W.failures output.old < 2 ^ 63 }
    ensures ok { OnOk result (Writes (IsReportIn format) (R.left input.old) (W.written output.old)
        (W.written output.new)) }
    ensures err { IfErr result (IsRefusalIn format (IsReportIn format) (R.left input.old) (W.written output.old)
        (W.written output.new)) }
    ensures memory { IsErrOf result OutOfMemory → TakesWithin (R.left input.old) (R.left input.new) }
    ensures reads { R.failures input.new ≡ R.failures input.old + failed_reads result }
    ensures writes { W.failures output.new ≡ W.failures output.old + failed_writes result }
{
    let text = read_text(alloc, input)?;
    let report = report_of_text_by_steps(alloc, format, &text, workers, steps)?;
    write_text(output, report.as_str())
}

/// Reads a trace without replaying it, and writes `ok pods=P ticks=T` and a newline. Rejects a trace as [`replay`]
/// does.
pub fn check<R: Source, W: Sink>(
    alloc: Global,
    input: &mut R,
    output: &mut W,
) -> Result<(), RunFault>
    requires reads { R.failures input.old < 2 ^ 63 }
    requires writes { W.failures output.old < 2 ^ 63 }
    ensures ok { OnOk result (Writes IsCheckOfText (R.left input.old) (W.written output.old) (W.written output.new)) }
    ensures err { IfErr result (IsRefusal IsCheckOfText (R.left input.old) (W.written output.old)
        (W.written output.new)) }
    ensures memory { IsErrOf result OutOfMemory → TakesWithin (R.left input.old) (R.left input.new) }
    ensures reads { R.failures input.new ≡ R.failures input.old + failed_reads result }
    ensures writes { W.failures output.new ≡ W.failures output.old + failed_writes result }
{
    check_in(alloc, Format::Standard, input, output)
}

/// Reads a trace in a format without replaying it, as [`check`] does of one in the standard format.
pub fn check_in<R: Source, W: Sink>(
    alloc: Global,
    format: Format,
    input: &mut R,
    output: &mut W,
) -> Result<(), RunFault>
    requires reads { R.failures input.old < 2 ^ 63 }
    requires writes { W.failures output.old < 2 ^ 63 }
    ensures ok { OnOk result (Writes (IsCheckIn format) (R.left input.old) (W.written output.old)
        (W.written output.new)) }
    ensures err { IfErr result (IsRefusalIn format (IsCheckIn format) (R.left input.old) (W.written output.old)
        (W.written output.new)) }
    ensures memory { IsErrOf result OutOfMemory → TakesWithin (R.left input.old) (R.left input.new) }
    ensures reads { R.failures input.new ≡ R.failures input.old + failed_reads result }
    ensures writes { W.failures output.new ≡ W.failures output.old + failed_writes result }
{
    let text = read_text(alloc, input)?;
    let line = check_of_text(alloc, format, &text)?;
    write_text(output, line.as_str())
}
