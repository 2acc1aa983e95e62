//! Windows of a text, whose lines are read ahead.

ghost use Rattle.std.specs.Prelude.{◌≡◌, ◌<◌, ◌≤◌, ◌+◌, ◌++◌, ⊤, IfOk, length, map};
ghost use Rattle.std.specs.Thread.{IsSync};
ghost use Rattle.json_lines.specs.rule.Lines.{lines_of};
ghost use Rattle.trace.specs.state.Ahead.{AreAhead};
ghost use Rattle.trace.specs.state.Windows.{AreEarly, AreFew, window_behind};

use crate::ahead::{LineAhead, read_each};
use json_lines::{joined, next_tick_lines};
use roster::Roster;
use std::alloc::{AllocError, Global};
use std::thread::{Threads, map_chunks};

/// A window that one thread reads has this many bytes, 64 KiB, and the end of its last line. So has the first one where
/// there are workers: an early fault is found before threads start. Workers share no shorter window.
pub(crate) const SMALLEST_WINDOW: usize = 65_536;

/// A window that workers share has no more bytes than these, 4 MiB, and the end of its last line: the threads start
/// again for each.
const GREATEST_WINDOW: usize = 4_194_304;

/// The lines of a window show no more pods together, where each line shows each pod.
const MOST_SHOWN: usize = 262_144;

/// They show no more pods than these if fewer ticks came before them: a fault in an early tick is found before much is
/// made of the ticks after it.
const FIRST_SHOWN: usize = 1024;

/// What is read of a line takes as much memory as this many pods, in addition to the pods that it shows.
const WEIGHT_OF_LINE: usize = 8;

/// The most lines that a window has after this many ticks.
fn most_lines(roster: &Roster, ticks: usize) -> usize
    ensures some { 0 < result }
    ensures few { AreFew roster.now result }
    ensures early { AreEarly roster.now ticks result }
{
    let weight = roster.pods().len().saturating_add(WEIGHT_OF_LINE);
    ticks
        .max(FIRST_SHOWN / weight)
        .min(MOST_SHOWN / weight)
        .max(1)
}

/// How many bytes the window has after one that had this many.
pub(crate) fn window_behind(had: usize, some_in_vain: bool) -> usize
    ensures { result ≡ window_behind had some_in_vain }
{
    if some_in_vain {
        SMALLEST_WINDOW
    } else {
        had.saturating_mul(2)
            .min(GREATEST_WINDOW)
            .max(SMALLEST_WINDOW)
    }
}

/// The lines at the beginning of a text, what was read of each ahead, and the text after them.
#[derive(Drop)]
pub(crate) struct WindowAhead<'t> {
    pub(crate) lines: Vec<&'t [u8]>,
    pub(crate) reads: Vec<LineAhead>,
    pub(crate) rest: &'t [u8],
}

/// What is read of each line ahead, in their order; this many workers share the lines.
fn read_shared<R: Threads + Sync>(
    rt: &R,
    alloc: Global,
    heeds: bool,
    roster: &Roster,
    lines: &[&[u8]],
    workers: usize,
) -> Result<Vec<LineAhead>, AllocError>
    requires { 0 < workers }
    ensures { IfOk result (λ reads. AreAhead heeds roster.now lines.now reads.items) }
{
    let size = lines.len().div_ceil(workers).max(1);
    let part = move |_: usize, part: &[&[u8]]| -> Result<Vec<LineAhead>, AllocError>
        ensures { IfOk result (λ reads. AreAhead heeds roster.entry.now part.entry.now reads.items) }
    { read_each(alloc, heeds, roster, part) };
    joined(alloc, map_chunks(rt, alloc, lines, size, &part)?)
}

/// Who reads the lines of a window.
pub(crate) trait WindowReader {
    // What holds of a reader that can read.
    ghost can_read: { Self → Type 0 };

    /// The next window, of this many bytes or fewer and the end of its last line, after this many ticks, read with
    /// these pods, and with the extension's members read or not. It always has a line, unless the text is empty.
    fn window<'t>(
        &self,
        alloc: Global,
        heeds: bool,
        roster: &Roster,
        text: &'t [u8],
        bytes: usize,
        ticks: usize,
    ) -> Result<WindowAhead<'t>, AllocError>
        requires reader { can_read self.now }
        requires bytes { 0 < bytes }
        ensures lines { IfOk result (λ window. lines_of text.now
            ≡ map (λ line. line.now) window.lines.items ++ lines_of window.rest.now) }
        ensures shorter { 0 < length text.now → IfOk result (λ window. length window.rest.now < length text.now) }
        ensures short { IfOk result (λ window.
            length window.lines.items + length window.rest.now ≤ length text.now) }
        ensures few { IfOk result (λ window. AreFew roster.now (length window.lines.items)) }
        ensures early { IfOk result (λ window. AreEarly roster.now ticks (length window.lines.items)) }
        ensures ahead { IfOk result (λ window. AreAhead heeds roster.now window.lines.items window.reads.items) };
}

/// This thread, which reads no more than 64 KiB at once.
pub(crate) struct OneThread;

impl WindowReader for OneThread {
    ghost can_read = { λ _. ⊤ };

    fn window<'t>(
        &self,
        alloc: Global,
        heeds: bool,
        roster: &Roster,
        text: &'t [u8],
        _bytes: usize,
        ticks: usize,
    ) -> Result<WindowAhead<'t>, AllocError> {
        let (lines, rest) = next_tick_lines(
            alloc,
            text,
            SMALLEST_WINDOW,
            most_lines(roster, ticks),
        )?;
        let reads = read_each(alloc, heeds, roster, &lines)?;
        Ok(WindowAhead { lines, reads, rest })
    }
}

/// This many workers, or this thread where a window has no more than 64 KiB.
#[derive(Drop)]
pub(crate) struct Workers<'r, R> {
    pub(crate) rt: &'r R,
    pub(crate) workers: usize,
}

impl<R: Threads + Sync> WindowReader for Workers<'_, R> {
    ghost can_read = { λ w. (0 < w.workers) × IsSync R.row };

    fn window<'t>(
        &self,
        alloc: Global,
        heeds: bool,
        roster: &Roster,
        text: &'t [u8],
        bytes: usize,
        ticks: usize,
    ) -> Result<WindowAhead<'t>, AllocError> {
        let (lines, rest) = next_tick_lines(alloc, text, bytes, most_lines(roster, ticks))?;
        let reads = if bytes <= SMALLEST_WINDOW || text.len() - rest.len() < SMALLEST_WINDOW {
            read_each(alloc, heeds, roster, &lines)?
        } else {
            read_shared(self.rt, alloc, heeds, roster, &lines, self.workers)?
        };
        Ok(WindowAhead { lines, reads, rest })
    }
}
