//! Reading a whole trace, window by window.

ghost use Rattle.std.specs.Prelude.{◌≡◌, ◌<◌, ◌≤◌, ◌+◌, ◌^◌, ◌∷◌, [], drop, length, map, IfNone, IfOk, IfSome};
ghost use Rattle.std.specs.Prelude.{Bool, IsTrue};
ghost use Rattle.std.specs.List.{prefix_len};
ghost use Rattle.std.specs.Vec.Iter.{into_iter_items};
ghost use Rattle.json_fields.specs.state.Reading.{GivesExactly, GivesUnless};
ghost use Rattle.json_lines.specs.rule.Lines.{is_blank, lines_of};
ghost use Rattle.json_lines.specs.state.Lines.{Blank, LineData, line_data};
ghost use Rattle.roster.specs.rule.Roll.{Roll};
ghost use Rattle.trace.specs.state.Ahead.{AreAhead, IsAhead, IsFresh, KeepsPods};
ghost use Rattle.trace.specs.state.Memory.{is_memory, GivesAt};
ghost use Rattle.trace.specs.state.Sound.{AreAcceptable, AreRising, HasShape, LeaveInThree};
ghost use Rattle.trace.specs.state.Taken.{any_line_at, lines_at};
ghost use Rattle.trace.specs.rule.Trace.{at_line, finished, nothing, trace_of};
ghost use Rattle.trace.specs.rule.TraceSoFar.{heeds};

use crate::ahead::{LineAhead, line_ahead};
use crate::reading::{take_line, take_shown};
use crate::trace_so_far::{Trace, TraceSoFar, heeds_words};
use crate::windows::{
    OneThread, SMALLEST_WINDOW, WindowAhead, WindowReader, Workers, window_behind,
};
use following::ListingOrder;
use json_lines::{LineBuffers, TextLine, skip_blank_lines};
use line_faults::{FaultKind, LineFault};
use lists::Sequence;
use node_config::Format;
use roster::Roster;
use std::alloc::Global;
use std::thread::Threads;
use std::vec::IntoIter;

/// What is known before the first line.
fn nothing(alloc: Global, format: Format) -> TraceSoFar
    ensures { result ≡ nothing format }
{
    TraceSoFar {
        format,
        node: None,
        roster: Roster::new(alloc),
        ticks: Sequence::new(alloc),
        following: ListingOrder::new(alloc),
    }
}

/// Takes a line whose turn has come, if the pods are no longer the ones with which it was read.
fn take_anew(alloc: Global, so_far: TraceSoFar, line: &[u8]) -> Result<TraceSoFar, FaultKind>
    ensures { GivesUnless is_memory (λ r. r) result (any_line_at so_far (line_data line.now)) }
{
    let mut buffers = LineBuffers::new(alloc);
    let heeds = heeds_words(&so_far);
    match line_ahead(alloc, heeds, &so_far.roster, line, &mut buffers) {
        Ok(LineAhead::Shown(tick)) => take_shown(so_far, tick),
        Ok(LineAhead::Said(said)) => take_line(alloc, so_far, &said),
        Err(error) => {
            drop(so_far);
            Err(FaultKind::from(error))
        }
    }
}

/// Takes a line that was read ahead; `is_fresh` is whether the pods are still the ones with which it was read.
fn take_ahead(
    alloc: Global,
    so_far: TraceSoFar,
    line: &[u8],
    read: LineAhead,
    is_fresh: bool,
) -> Result<TraceSoFar, FaultKind>
    requires { (heeds : Bool) × (roll : Roll) × IsAhead heeds roll (line_data line.now) read
        × (IsTrue is_fresh → IsFresh so_far heeds roll) }
    ensures { GivesUnless is_memory (λ r. r) result (any_line_at so_far (line_data line.now)) }
{
    match read {
        LineAhead::Shown(tick) if is_fresh => take_shown(so_far, tick),
        LineAhead::Shown(tick) => {
            drop(tick);
            take_anew(alloc, so_far, line)
        }
        LineAhead::Said(said) => take_line(alloc, so_far, &said),
    }
}

/// Whether the pods are the same after the line as before it.
fn keeps_pods(read: &LineAhead) -> bool
    ensures { IsTrue result → (heeds : Bool) (roll : Roll) (said : LineData) → IsAhead heeds roll said read.now
        → KeepsPods said }
{
    !matches!(read, LineAhead::Said(TextLine::Json(_)))
}

/// Whether the lines after this one were read with the pods that there are then, if this one was.
fn stays_fresh(is_fresh: bool, read: &LineAhead) -> bool
    ensures { IsTrue result → IsTrue is_fresh
        × ((heeds : Bool) (roll : Roll) (said : LineData) → IsAhead heeds roll said read.now → KeepsPods said) }
{
    is_fresh && keeps_pods(read)
}

/// Takes the line of this number. Returns whether the next one was read with the pods that there are.
fn take_next(
    alloc: Global,
    so_far: TraceSoFar,
    number: u64,
    line: &[u8],
    read: LineAhead,
    is_fresh: bool,
) -> Result<(TraceSoFar, bool), LineFault>
    requires { (heeds : Bool) × (roll : Roll) × IsAhead heeds roll (line_data line.now) read
        × (IsTrue is_fresh → IsFresh so_far heeds roll) }
    ensures gives { GivesAt (λ r. r.0) result (at_line number (any_line_at so_far (line_data line.now))) }
    ensures fresh { IfOk result (λ r. IsTrue r.1 → IsTrue is_fresh × IsFresh r.0 (heeds so_far) so_far.roll) }
{
    let stays_fresh = stays_fresh(is_fresh, &read);
    match take_ahead(alloc, so_far, line, read, is_fresh) {
        Ok(next) => Ok((next, stays_fresh)),
        Err(kind) => Err(LineFault { line: number, kind }),
    }
}

/// What was read of the next line; none only after the last one.
fn next_read(reads: &mut IntoIter<LineAhead>) -> Option<LineAhead>
    ensures some { IfSome result (λ read. into_iter_items reads.old ≡ read ∷ into_iter_items reads.new) }
    ensures none { IfNone result (into_iter_items reads.old ≡ []) }
{
    reads.next()
}

/// Whether a line was blank.
fn was_blank(read: &LineAhead) -> bool
    ensures { IsTrue result → (heeds : Bool) (roll : Roll) (said : LineData) → IsAhead heeds roll said read.now
        → said ≡ Blank }
{
    matches!(read, LineAhead::Said(TextLine::Blank))
}

/// Whether a tick line was read in vain, since the pods are no longer the ones with which it was read: what it shows of
/// them, or that it shows nothing.
fn is_in_vain(is_fresh: bool, read: &LineAhead) -> bool {
    !is_fresh
        && matches!(
            read,
            LineAhead::Shown(_) | LineAhead::Said(TextLine::Tick(_))
        )
}

/// Takes lines that were read ahead, the first of which has this number. Returns whether one was read in vain.
fn take_lines(
    alloc: Global,
    so_far: TraceSoFar,
    first: u64,
    lines: &[&[u8]],
    reads: Vec<LineAhead>,
) -> Result<(TraceSoFar, bool), LineFault>
    requires few { first + length lines.now < 2 ^ 64 }
    requires ahead { AreAhead (heeds so_far) so_far.roll lines.now reads.items }
    ensures { GivesAt (λ r. r.0) result (lines_at first so_far (map (λ line. line_data line.now) lines.now)) }
{
    let mut so_far = so_far;
    let mut number = first;
    let mut is_fresh = true;
    let mut some_in_vain = false;
    let mut reads = reads.into_iter();
    for line in lines {
        let Some(read) = next_read(&mut reads) else {
            unreachable!()
        };
        // blank lines may come by the thousand: what the lines so far gave is not moved for them
        if was_blank(&read) {
            number += 1;
            continue;
        }
        some_in_vain |= is_in_vain(is_fresh, &read);
        let (next, stays_fresh) = take_next(alloc, so_far, number, line, read, is_fresh)?;
        so_far = next;
        is_fresh = stays_fresh;
        number += 1;
    }
    Ok((so_far, some_in_vain))
}

/// A failed allocation, at this line.
fn no_memory(line: u64) -> LineFault
    ensures { IsTrue (is_memory result.kind) }
{
    LineFault {
        line,
        kind: FaultKind::OutOfMemory,
    }
}

fn finished(line: u64, so_far: TraceSoFar) -> Result<Trace, LineFault>
    ensures { GivesExactly (λ t. t) result (finished line so_far so_far.node) }
{
    let TraceSoFar {
        node,
        roster,
        ticks,
        ..
    } = so_far;
    match node {
        None => {
            drop((roster, ticks));
            Err(LineFault {
                line,
                kind: FaultKind::Order,
            })
        }
        Some(node) => {
            let (pods, arrivals, departures) = roster.into_parts();
            Ok(Trace {
                node,
                pods,
                arrivals,
                departures,
                ticks,
            })
        }
    }
}

/// Whether the last of the lines was blank: more of them may follow.
fn ends_blank(reads: &[LineAhead]) -> bool {
    match reads.last() {
        Some(read) => was_blank(read),
        None => false,
    }
}

/// How many blank lines are skipped at the beginning of a text, and the text after them: all blank lines, if that is
/// worth the check.
fn blanks_before(text: &[u8], is_likely: bool) -> (u64, &[u8])
    ensures count { result.0 ≤ prefix_len is_blank (lines_of text.now) }
    ensures rest { lines_of result.1.now ≡ drop result.0 (lines_of text.now) }
    ensures short { result.0 + length result.1.now ≤ length text.now }
{
    if is_likely {
        skip_blank_lines(text)
    } else {
        (0, text)
    }
}

/// The trace of a text, whose windows this reader reads.
fn read_windows<W: WindowReader>(
    reader: &W,
    alloc: Global,
    format: Format,
    text: &[u8],
) -> Result<Trace, LineFault>
    requires { W.can_read reader.now }
    ensures { GivesAt (λ t. t) result (trace_of format text.now) }
{
    let mut so_far = nothing(alloc, format);
    let mut rest = text;
    let mut number = 1u64;
    let mut bytes = SMALLEST_WINDOW;
    let mut ends_blank_line = false;
    while !rest.is_empty() {
        // a text may be blank lines by the million: they are counted before anything is made of each
        let (blanks, read) = blanks_before(rest, ends_blank_line);
        number += blanks;
        let ticks = so_far.ticks.as_slice().len();
        let Ok(window) = reader.window(
            alloc,
            heeds_words(&so_far),
            &so_far.roster,
            read,
            bytes,
            ticks,
        ) else {
            drop(so_far);
            return Err(no_memory(number));
        };
        let WindowAhead {
            lines,
            reads,
            rest: after,
        } = window;
        ends_blank_line = ends_blank(&reads);
        let (next, some_in_vain) = take_lines(alloc, so_far, number, &lines, reads)?;
        so_far = next;
        rest = after;
        number += lines.len() as u64;
        bytes = window_behind(read.len() - after.len(), some_in_vain);
    }
    finished(number, so_far)
}

/// The trace of a text in a format, or its first faulty line with that line's first fault. If an allocation fails, the
/// answer is `OutOfMemory`; nothing is promised of its line.
///
/// Of each trace that is returned: a listing may follow the earlier ones of its container. Moments rise, and are below
/// 2^40. Each tick shows exactly the pods that are present, each with one entry a container: their lines come before
/// the tick, and no line by which they are gone does. A pod arrives once, none before an earlier one, and leaves after
/// that or never, in version 3 alone. Of two pods of one key the earlier has left before the later arrives. There are
/// at most 20,000 ticks and 256 pods.
pub fn read_trace(alloc: Global, format: Format, text: &[u8]) -> Result<Trace, LineFault>
    ensures gives { GivesAt (λ t. t) result (trace_of format text.now) }
    ensures acceptable { IfOk result (λ t. AreAcceptable t.ticks) }
    ensures rising { IfOk result (λ t. AreRising t.ticks) }
    ensures shape { IfOk result (λ t. HasShape t.pods t.arrivals t.departures t.ticks) }
    ensures leaving { IfOk result (λ t. LeaveInThree t.node.version t.departures) }
{
    read_windows(&OneThread, alloc, format, text)
}

/// The trace of a text in a format, or its first faulty line with that line's first fault, with all that [`read_trace`]
/// promises of it; this many workers share the lines of a text after its first 64 KiB.
pub fn read_trace_by_workers<R: Threads + Sync>(
    rt: &R,
    alloc: Global,
    format: Format,
    text: &[u8],
    workers: usize,
) -> Result<Trace, LineFault>
    requires { 0 < workers }
    ensures gives { GivesAt (λ t. t) result (trace_of format text.now) }
    ensures acceptable { IfOk result (λ t. AreAcceptable t.ticks) }
    ensures rising { IfOk result (λ t. AreRising t.ticks) }
    ensures shape { IfOk result (λ t. HasShape t.pods t.arrivals t.departures t.ticks) }
    ensures leaving { IfOk result (λ t. LeaveInThree t.node.version t.departures) }
{
    read_windows(&Workers { rt, workers }, alloc, format, text)
}
