//! Lines that are read ahead of their turn, each with the pods that are known then, and with the extension's members
//! read or not.

ghost use Rattle.std.specs.Prelude.{◌≡◌, ◌≢◌, ◌<◌, false, length, All, IfOk, IfSome, OnErr, OnOk};
ghost use Rattle.json_lines.specs.state.Lines.{Tick, data_of, line_data};
ghost use Rattle.line_faults.specs.declared.fault.FaultKind.TheVariants.{OutOfMemory};
ghost use Rattle.trace.specs.state.Ahead.{AreAhead, IsAhead, IsShown};
ghost use Rattle.trace.specs.rule.Observed.{observed};
ghost use Rattle.trace.specs.rule.Placing.{are_of_one_pod, has_twice};

use crate::by_pod::entries_by_pod;
use crate::placing::{PlacedEntry, some_entry_repeats};
use crate::tape::shown_on_tape;
use crate::tick::{observed, placed_by, some_code_missing};
use crate::words::line_has_other_kind;
use json_lines::{LONGEST_TAPE, LineBuffers, TextLine, TickRecord, other_line, text_line};
use line_faults::FaultKind;
use observations::TickObs;
use roster::Roster;
use std::alloc::{AllocError, Global};
use tick_lines::TickLine;

/// What is read of a line ahead of its turn, with the pods that are known then.
#[derive(Drop)]
pub(crate) enum LineAhead {
    /// The tick that it shows of these pods. Nothing in the line is at fault by itself.
    Shown(TickObs),
    /// The content of any other line.
    Said(TextLine),
}

/// Goes on if the fault is another than a failed allocation.
fn unless_memory(kind: FaultKind) -> Result<(), AllocError>
    ensures refused { OnErr result (kind ≡ OutOfMemory) }
    ensures other { OnOk result (kind ≢ OutOfMemory) }
{
    match kind {
        FaultKind::OutOfMemory => Err(AllocError),
        _ => Ok(()),
    }
}

/// The tick that these entries show, unless one pod has two of them.
fn shown_once(
    alloc: Global,
    heeds: bool,
    at: u64,
    written: &TickLine,
    placed: &[PlacedEntry],
    roster: &Roster,
) -> Result<Option<TickObs>, AllocError>
    requires { All (λ e. e.pod < length roster.now.pods) placed.now }
    ensures { IfOk result (λ found. IfSome found (λ tick. (has_twice are_of_one_pod placed.now ≡ false)
        × (tick ≡ observed heeds at written.now placed.now roster.now))) }
{
    let found = entries_by_pod(alloc, placed, roster.pods().len())?;
    if found.has_pod_twice {
        return Ok(None);
    }
    let tick = observed(alloc, heeds, at, written, placed, &found.first, roster)?;
    Ok(Some(tick))
}

/// The tick that a tick line shows of these pods, if nothing in it is at fault by itself.
fn shown_by(
    alloc: Global,
    heeds: bool,
    roster: &Roster,
    line: &TickRecord,
) -> Result<Option<TickObs>, AllocError>
    ensures { IfOk result (λ found. IfSome found (IsShown heeds roster.now (Tick line.now.at line.now.written))) }
{
    let (Some(at), Ok(written)) = (line.at, &line.written) else {
        return Ok(None);
    };
    if heeds && line_has_other_kind(written) {
        return Ok(None);
    }
    let placed = match placed_by(alloc, heeds, roster, written) {
        Ok(placed) => placed,
        Err(kind) => {
            unless_memory(kind)?;
            return Ok(None);
        }
    };
    if some_entry_repeats(&placed) || some_code_missing(&placed) {
        return Ok(None);
    }
    shown_once(alloc, heeds, at, written, &placed, roster)
}

/// Reads a tick line ahead. The record is dropped here, by the thread that made it.
fn tick_ahead(
    alloc: Global,
    heeds: bool,
    roster: &Roster,
    line: TickRecord,
) -> Result<LineAhead, AllocError>
    ensures { IfOk result (IsAhead heeds roster.now (Tick line.at line.written)) }
{
    match shown_by(alloc, heeds, roster, &line)? {
        Some(tick) => {
            drop(line);
            Ok(LineAhead::Shown(tick))
        }
        None => Ok(LineAhead::Said(TextLine::Tick(line))),
    }
}

/// Reads ahead a line of this content.
fn said_ahead(
    alloc: Global,
    heeds: bool,
    roster: &Roster,
    said: TextLine,
) -> Result<LineAhead, AllocError>
    ensures { IfOk result (IsAhead heeds roster.now (data_of said)) }
{
    match said {
        TextLine::Tick(tick) => tick_ahead(alloc, heeds, roster, tick),
        said => Ok(LineAhead::Said(said)),
    }
}

/// Reads a line ahead. An empty one, of which there may be many, is not looked at.
pub(crate) fn line_ahead(
    alloc: Global,
    heeds: bool,
    roster: &Roster,
    line: &[u8],
    buffers: &mut LineBuffers,
) -> Result<LineAhead, AllocError>
    ensures { IfOk result (IsAhead heeds roster.now (line_data line.now)) }
{
    // Blank lines may come by the million. (docs/decisions/reading.md)
    if line.is_empty() {
        return Ok(LineAhead::Said(TextLine::Blank));
    }
    match shown_on_tape(alloc, heeds, roster, line, buffers)? {
        Some(Some(tick)) => Ok(LineAhead::Shown(tick)),
        found => {
            let said = if found.is_some() || line.len() > LONGEST_TAPE {
                text_line(alloc, line, buffers)?
            } else {
                other_line(alloc, line)?
            };
            said_ahead(alloc, heeds, roster, said)
        }
    }
}

/// Reads each line ahead, in their order.
pub(crate) fn read_each(
    alloc: Global,
    heeds: bool,
    roster: &Roster,
    lines: &[&[u8]],
) -> Result<Vec<LineAhead>, AllocError>
    ensures { IfOk result (λ reads. AreAhead heeds roster.now lines.now reads.items) }
{
    let mut buffers = LineBuffers::new(alloc);
    let mut reads = Vec::with_capacity(alloc, lines.len())?;
    for line in lines {
        let read = line_ahead(alloc, heeds, roster, line, &mut buffers)?;
        reads.push(read)?;
    }
    Ok(reads)
}
