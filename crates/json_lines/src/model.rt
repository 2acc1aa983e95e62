//! Windows of a text whose lines are each read by itself through `serde_json`: what the faster readers of the same
//! lines are compared with.

ghost use Rattle.std.specs.Prelude.{◌≡◌, ◌<◌, ◌≤◌, ◌+◌, ◌++◌, length, map, IfOk};
ghost use Rattle.json_lines.specs.rule.Lines.{lines_of};
ghost use Rattle.json_lines.specs.state.Lines.{line_data, data_of};

use crate::line::{TextLine, other_line};
use crate::lines::first_line;
use crate::parts::joined;
use std::alloc::{AllocError, Global};
use std::thread::{Threads, map_chunks};

/// A window that one thread reads has this many bytes, 64 KiB, and the end of its last line. Workers share no shorter
/// text.
const ALONE: usize = 65_536;

/// A window that workers share has this many bytes, 1 MiB, and the end of its last line.
const SHARED: usize = 1_048_576;

/// The lines at the beginning of a text, and the text after them.
#[derive(Drop)]
pub struct Window<'t> {
    /// The content of each line, in their order.
    pub lines: Vec<TextLine>,
    /// The text after them.
    pub rest: &'t [u8],
}

/// The next lines, of at least this many bytes with their newlines where there are this many, and the text after them.
fn next_lines(alloc: Global, text: &[u8], bytes: usize) -> Result<(Vec<&[u8]>, &[u8]), AllocError>
    requires { 0 < bytes }
    ensures lines { IfOk result (λ p. lines_of text.now ≡ map (λ line. line.now) p.0.items ++ lines_of p.1.now) }
    ensures shorter { 0 < length text.now → IfOk result (λ p. length p.1.now < length text.now) }
    ensures few { IfOk result (λ p. length p.0.items + length p.1.now ≤ length text.now) }
{
    let mut found = Vec::new(alloc);
    let mut rest = text;
    while text.len() - rest.len() < bytes {
        let Some((line, after)) = first_line(rest) else {
            return Ok((found, rest));
        };
        found.push(line)?;
        rest = after;
    }
    Ok((found, rest))
}

/// The content of each line, in their order.
fn read_each(alloc: Global, lines: &[&[u8]]) -> Result<Vec<TextLine>, AllocError>
    ensures { IfOk result (λ reads. map data_of reads.items ≡ map (λ line. line_data line.now) lines.now) }
{
    let mut reads = Vec::with_capacity(alloc, lines.len())?;
    for line in lines {
        reads.push(other_line(alloc, line)?)?;
    }
    Ok(reads)
}

/// The content of each line, in their order; this many workers share the lines.
fn read_shared<R: Threads + Sync>(
    rt: &R,
    alloc: Global,
    lines: &[&[u8]],
    workers: usize,
) -> Result<Vec<TextLine>, AllocError>
    requires { 0 < workers }
    ensures { IfOk result (λ reads. map data_of reads.items ≡ map (λ line. line_data line.now) lines.now) }
{
    let size = lines.len().div_ceil(workers).max(1);
    let part = move |_: usize, part: &[&[u8]]| -> Result<Vec<TextLine>, AllocError>
        ensures { IfOk result (λ reads. map data_of reads.items ≡ map (λ line. line_data line.now) part.entry.now) }
    { read_each(alloc, part) };
    joined(alloc, map_chunks(rt, alloc, lines, size, &part)?)
}

/// The next window, read by this thread. It is never without a line where the text isn't empty.
pub fn window_alone(alloc: Global, text: &[u8]) -> Result<Window<'_>, AllocError>
    ensures lines { IfOk result (λ window. map line_data (lines_of text.now)
        ≡ map data_of window.lines.items ++ map line_data (lines_of window.rest.now)) }
    ensures shorter { 0 < length text.now → IfOk result (λ window. length window.rest.now < length text.now) }
    ensures few { IfOk result (λ window. length window.lines.items + length window.rest.now ≤ length text.now) }
{
    let (lines, rest) = next_lines(alloc, text, ALONE)?;
    let lines = read_each(alloc, &lines)?;
    Ok(Window { lines, rest })
}

/// The next window, read by this many workers, or by this thread where the text is below 64 KiB. It is never without a
/// line where the text isn't empty.
pub fn window_by_workers<'t, R: Threads + Sync>(
    rt: &R,
    alloc: Global,
    text: &'t [u8],
    workers: usize,
) -> Result<Window<'t>, AllocError>
    requires { 0 < workers }
    ensures lines { IfOk result (λ window. map line_data (lines_of text.now)
        ≡ map data_of window.lines.items ++ map line_data (lines_of window.rest.now)) }
    ensures shorter { 0 < length text.now → IfOk result (λ window. length window.rest.now < length text.now) }
    ensures few { IfOk result (λ window. length window.lines.items + length window.rest.now ≤ length text.now) }
{
    if text.len() < ALONE {
        return window_alone(alloc, text);
    }
    let (lines, rest) = next_lines(alloc, text, SHARED)?;
    let lines = read_shared(rt, alloc, &lines, workers)?;
    Ok(Window { lines, rest })
}
