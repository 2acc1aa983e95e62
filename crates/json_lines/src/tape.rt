//! Tick lines of the common shape, as the tape of their tokens.

ghost use Rattle.std.specs.Prelude.{◌≡◌, false, Some, IfOk, IfSome};
ghost use Rattle.json_fields.specs.state.Tape.{data_at};
ghost use Rattle.json_lines.specs.rule.Lines.{is_blank};
ghost use Rattle.json_lines.specs.state.Lines.{line_data, said_in, SaysTickOn};
ghost use Rattle.json_lines.specs.state.Ticks.{is_tick, moment_at};

use crate::plain::{LineBuffers, refused_memory};
use crate::tick::moment_written;
use crate::window::names_ticks;
use json::{Scratch, Tape, Value};
use json_fields::{TapeValue, is_plain_tape};
use simdutf8::compat::from_utf8;
use std::alloc::{AllocError, Global};

/// No tape is made of a line of more bytes than these, 256 KiB: it takes up to 28 times as many, for each worker. Such
/// a line is read through a tree, by `text_line`.
pub const LONGEST_TAPE: usize = 262_144;

/// The tape of a text, if it is a tick line, each of its numbers is one that digits alone write, below 2^64, and
/// nothing in it nests deeper than `json_fields::MAX_DEPTH`.
#[tactic(auto, using(crate::proofs::OnTape::tape_said, crate::proofs::Blanks::some_not_blank))]
fn tape_in<'a>(
    alloc: Global,
    line: &'a [u8],
    scratch: &'a mut Scratch,
) -> Result<Option<Tape<'a>>, AllocError>
    ensures says { IfOk result (λ found. IfSome found (SaysTickOn (said_in line.now))) }
    ensures not_blank { IfOk result (λ found. IfSome found (λ _. is_blank line.now ≡ false)) }
{
    let Ok(text) = from_utf8(line) else {
        return Ok(None);
    };
    match Tape::parse(text, scratch, Vec::new(alloc)) {
        Ok(tape) if is_plain_tape(&tape) && is_tick_tape(&tape) => Ok(Some(tape)),
        Ok(_) => Ok(None),
        Err(error) => {
            refused_memory(error)?;
            Ok(None)
        }
    }
}

/// Whether the value on the tape is a tick by its kind.
fn is_tick_tape(tape: &Tape<'_>) -> bool
    ensures { result ≡ is_tick (data_at tape.now) }
{
    TapeValue::root(tape).text_at("kind") == Some("tick")
}

/// The tape of a line, if it is a tick line of the common shape. So almost every tick line is read; `other_line` reads
/// the other lines. For a line without the word of ticks no tape is begun: a pod's would be long, and of no use. No
/// clause promises that a tape is made of any line.
pub fn tick_tape<'a>(
    alloc: Global,
    line: &'a [u8],
    buffers: &'a mut LineBuffers,
) -> Result<Option<Tape<'a>>, AllocError>
    ensures { IfOk result (λ found. IfSome found (SaysTickOn (line_data line.now))) }
{
    if line.len() > LONGEST_TAPE || !names_ticks(line) || !buffers.tries.tries_next() {
        return Ok(None);
    }
    let found = tape_in(alloc, line, &mut buffers.scratch)?;
    buffers.tries.note(found.is_some());
    Ok(found)
}

/// The whole number that a tick line gives as its moment, in seconds.
pub fn tape_moment(value: &TapeValue<'_, '_>) -> Option<u64>
    ensures { IfSome result (λ at. moment_at (data_at value.now) ≡ Some at) }
{
    let found: Option<Value<'_>> = value.scalar_at("at")?;
    moment_written(found.as_ref())
}
