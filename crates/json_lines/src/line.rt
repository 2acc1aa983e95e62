//! The content of a line by itself.

ghost use Rattle.std.specs.Prelude.{◌≡◌, true, false, IfNone, IfOk, IsOk, MatchOption, OnOk, OnErr, option_map};
ghost use Rattle.serde_json.specs.Errors.{IsMemory};
ghost use Rattle.serde_json.specs.View.{view};
ghost use Rattle.json_lines.specs.rule.Lines.{json_in};
ghost use Rattle.json_lines.specs.state.Lines.{said_by, said_in, is_unread, line_data, data_of};

use crate::lines::is_blank;
use crate::plain::{LineBuffers, plain_tick};
use crate::tick::{TickRecord, is_tick, tick_record};
use serde_json::{Error, Value};
use std::alloc::{AllocError, Global};

/// The most bytes of a line, 1 MiB.
const LONGEST_LINE: usize = 1_048_576;

/// The content of a line of a text by itself.
#[derive(Drop)]
pub enum TextLine {
    /// Spaces, tabs and carriage returns alone.
    Blank,
    /// More than 1 MiB.
    TooLong,
    /// No JSON value.
    NotJson,
    /// A tick line, read field by field.
    Tick(TickRecord),
    /// The JSON value of any other line.
    Json(Value),
}

/// Goes on if the line is no JSON. Returns `Err` only if an allocation fails.
fn refused_memory(error: &Error) -> Result<(), AllocError>
    ensures refused { OnErr result (IsMemory error.now) }
    ensures not_json { OnOk result (¬ IsMemory error.now) }
{
    if error.is_memory() {
        return Err(AllocError);
    }
    Ok(())
}

/// The JSON value of a line, if it has one.
fn json(alloc: Global, line: &[u8]) -> Result<Option<Value>, AllocError>
    ensures { IfOk result (λ found. option_map view found ≡ json_in line.now) }
{
    match Value::from_slice(alloc, line) {
        Ok(value) => Ok(Some(value)),
        Err(error) => {
            refused_memory(&error)?;
            Ok(None)
        }
    }
}

/// The content of a JSON value. A tick's value is dropped here, by the thread that made it.
#[tactic(auto, unfolding(crate::specs::state::Lines::said_by))]
fn said_by(alloc: Global, value: Value) -> Result<TextLine, AllocError>
    ensures { IfOk result (λ read. data_of read ≡ said_by (view value)) }
{
    if !is_tick(&value) {
        return Ok(TextLine::Json(value));
    }
    let tick = tick_record(alloc, &value);
    drop(value);
    Ok(TextLine::Tick(tick?))
}

/// The content of a line that is not blank and not too long, as `serde_json` reads it.
fn said_by_value(alloc: Global, line: &[u8]) -> Result<TextLine, AllocError>
    ensures { IfOk result (λ read. data_of read ≡ said_in line.now) }
{
    match json(alloc, line)? {
        Some(value) => said_by(alloc, value),
        None => Ok(TextLine::NotJson),
    }
}

/// The content of a line that is neither blank nor too long; a plain tick is read faster.
fn said_in(alloc: Global, line: &[u8], buffers: &mut LineBuffers) -> Result<TextLine, AllocError>
    ensures { IfOk result (λ read. data_of read ≡ said_in line.now) }
{
    if let Some(tick) = plain_tick(alloc, line, buffers)? {
        return Ok(TextLine::Tick(tick));
    }
    said_by_value(alloc, line)
}

/// The content of a line that is not read: a blank one, or one that is too long.
fn unread(line: &[u8]) -> Option<TextLine>
    ensures says { MatchOption result (line_data line.now ≡ said_in line.now)
        (λ read. data_of read ≡ line_data line.now) }
    ensures none { IfNone result (is_unread line.now ≡ false) }
{
    if is_blank(line) {
        return Some(TextLine::Blank);
    }
    if line.len() > LONGEST_LINE {
        return Some(TextLine::TooLong);
    }
    None
}

/// The content of a line by itself, whatever the other lines are. Doesn't allocate for a line that is not read. Returns
/// `Err` if an allocation fails.
pub fn text_line(
    alloc: Global,
    line: &[u8],
    buffers: &mut LineBuffers,
) -> Result<TextLine, AllocError>
    ensures says { IfOk result (λ read. data_of read ≡ line_data line.now) }
    ensures unread { is_unread line.now ≡ true → IsOk result }
{
    match unread(line) {
        Some(said) => Ok(said),
        None => said_in(alloc, line, buffers),
    }
}

/// The content of a line, as [`text_line`] reads it, of which [`tick_tape`](crate::tick_tape) made no tape: it has
/// another shape than the common one, so that only `serde_json` can read it. Doesn't allocate for a line that is not
/// read. Returns `Err` if an allocation fails.
pub fn other_line(alloc: Global, line: &[u8]) -> Result<TextLine, AllocError>
    ensures says { IfOk result (λ read. data_of read ≡ line_data line.now) }
    ensures unread { is_unread line.now ≡ true → IsOk result }
{
    match unread(line) {
        Some(read) => Ok(read),
        None => said_by_value(alloc, line),
    }
}
