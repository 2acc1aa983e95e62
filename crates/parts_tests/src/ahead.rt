//! What the lines of a window say to the readers that `trace` uses: first the tape's, and then those of lines that have
//! none, or are not of the common shape.

use crate::said::{
    add_key, add_listing, add_moment, add_result, add_samples, add_truth, add_usage, line_said,
};
use json_fields::{TapeItems, TapeValue};
use json_lines::{
    LONGEST_TAPE, LineBuffers, TextLine, joined, other_line, tape_moment, text_line, tick_tape,
};
use std::alloc::{AllocError, Global};
use std::thread::{Threads, map_chunks};
use tick_lines::{entry_text, line_text, listing_text, result_text, samples_text};

/// Who has read a line.
#[derive(Clone, Copy, Debug, PartialEq, Eq)]
pub(crate) enum Reader {
    /// The tape's readers.
    Tape,
    /// `text_line`, since the tape's readers left the line to it.
    AfterTape,
    /// `other_line`, since the line has no tape; or `text_line`, since it is too long for one.
    NoTape,
}

/// A line that was read ahead.
#[derive(Drop)]
pub(crate) struct Read {
    pub(crate) reader: Reader,
    /// What the line says to this reader.
    pub(crate) said: String,
    /// What it says to `text_line`, which has read each line before it too.
    pub(crate) said_alone: String,
}

/// Adds what the listings of an entry say, and says whether all were read.
fn add_listings(text: &mut String, items: Option<TapeItems<'_, '_>>) -> Result<bool, AllocError> {
    let Some(mut items) = items else {
        return Ok(true);
    };
    for _ in 0..usize::MAX {
        let Some(item) = items.next() else {
            return Ok(true);
        };
        let Some(listing) = listing_text(&item) else {
            return Ok(false);
        };
        add_listing(text, listing.name, listing.instance)?;
    }
    Ok(false)
}

/// Adds the results of a pod's probes, and says whether each was read.
fn add_results(text: &mut String, items: Option<TapeItems<'_, '_>>) -> Result<bool, AllocError> {
    let Some(mut items) = items else {
        return Ok(true);
    };
    for _ in 0..usize::MAX {
        let Some(item) = items.next() else {
            return Ok(true);
        };
        let Some(result) = result_text(&item) else {
            return Ok(false);
        };
        add_result(text, result.container, result.probe, result.outcome)?;
    }
    Ok(false)
}

/// Adds an entry, and says whether it was read whole.
fn add_entry(text: &mut String, item: &TapeValue<'_, '_>) -> Result<bool, AllocError> {
    let Some(entry) = entry_text(item) else {
        return Ok(false);
    };
    add_key(text, entry.key)?;
    if !add_listings(text, entry.listings)? || !add_results(text, entry.results)? {
        return Ok(false);
    }
    add_usage(text, entry.usage)?;
    Ok(true)
}

/// Adds the entries of a tick line, and says whether each was read.
fn add_entries(text: &mut String, items: Option<TapeItems<'_, '_>>) -> Result<bool, AllocError> {
    let Some(mut items) = items else {
        return Ok(true);
    };
    for _ in 0..usize::MAX {
        let Some(item) = items.next() else {
            return Ok(true);
        };
        if !add_entry(text, &item)? {
            return Ok(false);
        }
    }
    Ok(false)
}

/// What a tick line says to the tape's readers; none where one of them leaves it to the other reader.
fn tape_said(alloc: Global, value: &TapeValue<'_, '_>) -> Result<Option<String>, AllocError> {
    let Some(at) = tape_moment(value) else {
        return Ok(None);
    };
    let mut text = String::new(alloc);
    add_moment(&mut text, Some(at))?;
    let Some(line) = line_text(value) else {
        return Ok(None);
    };
    let Some(samples) = samples_text(alloc, &line)? else {
        return Ok(None);
    };
    if !add_entries(&mut text, line.entries)? {
        return Ok(None);
    }
    add_truth(&mut text, "unjudged", line.unjudged)?;
    add_samples(&mut text, samples.signals, samples.after_reclaim)?;
    Ok(Some(text))
}

/// What a line says to the tape's readers, if it has a tape.
fn on_tape(
    alloc: Global,
    line: &[u8],
    buffers: &mut LineBuffers,
) -> Result<Option<Option<String>>, AllocError> {
    match tick_tape(alloc, line, buffers)? {
        Some(tape) => Ok(Some(tape_said(alloc, &TapeValue::root(&tape))?)),
        None => Ok(None),
    }
}

/// What a line says of which this was read.
fn said_of(alloc: Global, read: TextLine) -> Result<String, AllocError> {
    let said = line_said(alloc, &read);
    drop(read);
    said
}

/// What a line says to `text_line`.
fn said_alone(alloc: Global, line: &[u8], buffers: &mut LineBuffers) -> Result<String, AllocError> {
    said_of(alloc, text_line(alloc, line, buffers)?)
}

/// Reads a line as `trace` does.
fn read_ahead(
    alloc: Global,
    line: &[u8],
    buffers: &mut LineBuffers,
) -> Result<(Reader, String), AllocError> {
    match on_tape(alloc, line, buffers)? {
        Some(Some(said)) => Ok((Reader::Tape, said)),
        Some(None) => Ok((Reader::AfterTape, said_alone(alloc, line, buffers)?)),
        None if line.len() > LONGEST_TAPE => {
            Ok((Reader::NoTape, said_alone(alloc, line, buffers)?))
        }
        None => Ok((Reader::NoTape, said_of(alloc, other_line(alloc, line)?)?)),
    }
}

/// Reads a line as `trace` does, and by `text_line`, which has read each line before it too.
fn read_both(
    alloc: Global,
    line: &[u8],
    buffers: &mut LineBuffers,
    buffers_alone: &mut LineBuffers,
) -> Result<Read, AllocError> {
    let (reader, said) = read_ahead(alloc, line, buffers)?;
    match said_alone(alloc, line, buffers_alone) {
        Ok(said_alone) => Ok(Read {
            reader,
            said,
            said_alone,
        }),
        Err(refused) => {
            drop(said);
            Err(refused)
        }
    }
}

/// Adds what is read of each line.
fn add_reads(
    alloc: Global,
    lines: &[&[u8]],
    reads: &mut Vec<Read>,
    buffers: &mut LineBuffers,
    buffers_alone: &mut LineBuffers,
) -> Result<(), AllocError> {
    for line in lines {
        reads.push(read_both(alloc, line, buffers, buffers_alone)?)?;
    }
    Ok(())
}

/// Reads each line, in their order.
fn read_each(alloc: Global, lines: &[&[u8]]) -> Result<Vec<Read>, AllocError> {
    let mut buffers = LineBuffers::new(alloc);
    let mut buffers_alone = LineBuffers::new(alloc);
    let mut reads = Vec::new(alloc);
    let answer = add_reads(alloc, lines, &mut reads, &mut buffers, &mut buffers_alone);
    drop((buffers, buffers_alone));
    match answer {
        Ok(()) => Ok(reads),
        Err(refused) => {
            drop(reads);
            Err(refused)
        }
    }
}

/// Reads the lines of a window, which this many workers share.
pub(crate) fn read_lines<R: Threads + Sync>(
    rt: &R,
    alloc: Global,
    lines: &[&[u8]],
    workers: usize,
) -> Result<Vec<Read>, AllocError> {
    if workers < 2 {
        return read_each(alloc, lines);
    }
    let size = lines.len().div_ceil(workers).max(1);
    let part = move |_: usize, part: &[&[u8]]| -> Result<Vec<Read>, AllocError> {
        read_each(alloc, part)
    };
    joined(alloc, map_chunks(rt, alloc, lines, size, &part)?)
}
