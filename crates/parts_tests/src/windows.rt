//! Two readings of one text, line by line: that of windows, whose lines are each read by itself through `serde_json`,
//! and that of the lines that `trace` reads together.

use crate::ahead::{Read, Reader, read_lines};
use crate::said::line_said;
use json_lines::{TextLine, next_tick_lines, skip_blank_lines, window_alone, window_by_workers};
use std::alloc::{AllocError, AllocGlobal, Global};
use std::mem::replace;
use std::process::Abort;
use std::thread::Threads;
use std::vec::IntoIter;

/// A tick line at this moment may be left to the other reader by the tape's, though nothing in it is at fault.
pub(crate) const LEFT: u64 = 99;

/// The fewest bytes of a window of `trace`.
pub(crate) const SMALLEST_WINDOW: usize = 65_536;

/// The most bytes of a window of `trace`.
pub(crate) const GREATEST_WINDOW: usize = 4_194_304;

/// How `trace` reads a text.
#[derive(Clone, Copy, Debug)]
pub(crate) struct Reading {
    /// So many workers share the lines of a window.
    workers: usize,
    /// A window has no more lines than these where no tick is before it.
    first: usize,
    /// It never has more lines than these.
    most: usize,
}

/// With one pod, and with 256.
pub(crate) const READINGS: [Reading; 5] = [
    Reading {
        workers: 1,
        first: 113,
        most: 29_127,
    },
    Reading {
        workers: 1,
        first: 3,
        most: 992,
    },
    Reading {
        workers: 2,
        first: 3,
        most: 992,
    },
    Reading {
        workers: 3,
        first: 113,
        most: 29_127,
    },
    Reading {
        workers: 64,
        first: 113,
        most: 29_127,
    },
];

/// The lines of a text as its windows have them, one after the other.
#[derive(Drop)]
struct ModelLines<'t> {
    read: IntoIter<TextLine>,
    rest: &'t [u8],
    workers: usize,
}

impl<'t> ModelLines<'t> {
    fn next<H: AllocGlobal + Threads + Sync>(
        &mut self,
        rt: &H,
    ) -> Result<Option<TextLine>, AllocError> {
        if let Some(line) = self.read.next() {
            return Ok(Some(line));
        }
        let window = if self.workers < 2 {
            window_alone(rt.alloc(), self.rest)?
        } else {
            window_by_workers(rt, rt.alloc(), self.rest, self.workers.max(1))?
        };
        self.rest = window.rest;
        drop(replace(&mut self.read, window.lines.into_iter()));
        Ok(self.read.next())
    }
}

/// Whether the tape's readers may leave a line to the other reader.
fn may_be_left(line: &TextLine) -> bool {
    match line {
        TextLine::Tick(tick) => tick.written.is_err() || tick.at.is_none() || tick.at == Some(LEFT),
        _ => false,
    }
}

/// What was found in the lines so far.
#[derive(Clone, Copy, Debug, Default)]
pub(crate) struct Found {
    pub(crate) lines: usize,
    pub(crate) ticks: usize,
    /// How many lines the tape's readers have read.
    pub(crate) on_tape: usize,
}

impl Found {
    fn with(self, wanted: &TextLine, reader: Reader) -> Found {
        Found {
            lines: self.lines.saturating_add(1),
            ticks: self
                .ticks
                .saturating_add(usize::from(matches!(wanted, TextLine::Tick(_)))),
            on_tape: self
                .on_tape
                .saturating_add(usize::from(reader == Reader::Tape)),
        }
    }
}

/// Compares what was read of the next line with what it says, and says whether it is blank.
fn expect_line<H: Abort + AllocGlobal>(
    rt: &H,
    wanted: &TextLine,
    read: &Read,
    found: &mut Found,
) -> Result<bool, AllocError> {
    let said = line_said(rt.alloc(), wanted)?;
    let (number, reader) = (found.lines, read.reader);
    assert_eq!(rt;
        read.said.as_str(),
        said.as_str(),
        "line {number}, {reader:?}"
    );
    assert_eq!(rt;
        read.said_alone.as_str(),
        said.as_str(),
        "line {number}, by itself"
    );
    assert!(rt;
        reader != Reader::AfterTape || may_be_left(wanted),
        "line {number} was left by the tape's readers"
    );
    *found = found.with(wanted, reader);
    Ok(matches!(wanted, TextLine::Blank))
}

/// Compares what was read of the next line with what the windows have, and says whether it is blank.
fn expect_next<H: Abort + AllocGlobal + Threads + Sync>(
    rt: &H,
    model: &mut ModelLines<'_>,
    read: &Read,
    found: &mut Found,
) -> Result<bool, AllocError> {
    let next = model.next(rt)?;
    let wanted = next.expect(rt, "the windows have fewer lines");
    let is_blank = expect_line(rt, &wanted, read, found);
    drop(wanted);
    is_blank
}

/// Compares what was read of the lines of a window, and says whether the last one is blank.
fn expect_lines<H: Abort + AllocGlobal + Threads + Sync>(
    rt: &H,
    model: &mut ModelLines<'_>,
    reads: &[Read],
    found: &mut Found,
) -> Result<bool, AllocError> {
    let mut ends_blank = false;
    for read in reads {
        ends_blank = expect_next(rt, model, read, found)?;
    }
    Ok(ends_blank)
}

/// The next so many lines are blank.
fn expect_blanks<H: Abort + AllocGlobal + Threads + Sync>(
    rt: &H,
    model: &mut ModelLines<'_>,
    count: u64,
) -> Result<(), AllocError> {
    for _ in 0..count {
        let next = model.next(rt)?;
        let is_blank = matches!(next, Some(TextLine::Blank));
        drop(next);
        assert!(rt; is_blank, "a line was skipped that is not blank");
    }
    Ok(())
}

/// How many bytes the window behind one that had so many has.
fn window_behind(had: usize) -> usize {
    had.saturating_mul(2)
        .min(GREATEST_WINDOW)
        .max(SMALLEST_WINDOW)
}

/// Compares the two readings of the next window, of so many bytes, and gives what is behind it, and whether its last
/// line is blank.
fn expect_window<'t, H: Abort + AllocGlobal + Threads + Sync>(
    rt: &H,
    model: &mut ModelLines<'_>,
    rest: &'t [u8],
    bytes: usize,
    reading: Reading,
    found: &mut Found,
) -> Result<(&'t [u8], bool), AllocError> {
    let most = found.ticks.max(reading.first).min(reading.most);
    let (lines, after) = next_tick_lines(rt.alloc(), rest, bytes.max(1), most.max(1))?;
    let reads = read_lines(rt, rt.alloc(), &lines, reading.workers)?;
    let ends_blank = expect_lines(rt, model, &reads, found);
    drop(reads);
    Ok((after, ends_blank?))
}

/// Compares the readings of a text, of which the model has read nothing.
fn expect_all<H: Abort + AllocGlobal + Threads + Sync>(
    rt: &H,
    model: &mut ModelLines<'_>,
    text: &[u8],
    first_bytes: usize,
    reading: Reading,
) -> Result<Found, AllocError> {
    let mut found = Found::default();
    let mut rest = text;
    let mut bytes = first_bytes;
    for _ in 0..=text.len() {
        let (after, ends_blank) = expect_window(rt, model, rest, bytes, reading, &mut found)?;
        bytes = window_behind(rest.len().saturating_sub(after.len()));
        rest = after;
        if ends_blank {
            let (blanks, behind) = skip_blank_lines(rest);
            expect_blanks(rt, model, blanks)?;
            rest = behind;
        }
        if rest.is_empty() {
            break;
        }
    }
    let next = model.next(rt)?;
    let has_ended = next.is_none();
    drop(next);
    assert!(rt; has_ended, "the windows have more lines");
    assert!(rt; rest.is_empty());
    Ok(found)
}

/// Compares the two readings of a text, whose first window has so many bytes.
pub(crate) fn expect_same<H: Abort + AllocGlobal + Threads + Sync>(
    rt: &H,
    text: &[u8],
    first_bytes: usize,
    reading: Reading,
) -> Result<Found, AllocError> {
    let mut model = ModelLines {
        read: Vec::new(rt.alloc()).into_iter(),
        rest: text,
        workers: reading.workers,
    };
    let found = expect_all(rt, &mut model, text, first_bytes, reading);
    drop(model);
    found
}

/// Compares the two readings of a text, by 1, 2, 3 and 64 workers.
pub(crate) fn expect_same_by_each<H: Abort + AllocGlobal + Threads + Sync>(
    rt: &H,
    text: &[u8],
    first_bytes: usize,
) -> Result<(), AllocError> {
    for reading in READINGS {
        expect_same(rt, text, first_bytes, reading)?;
    }
    Ok(())
}
