//! Tick lines of the common shape, read without a copy of their texts.

ghost use Rattle.std.specs.Prelude.{◌≡◌, ◌≢◌, IfOk, IfSome, OnOk, OnErr, Some};
ghost use Rattle.json.specs.Value.{value_view};
ghost use Rattle.json.specs.declared.error.Error.TheVariants.{OutOfMemory};
ghost use Rattle.json_lines.specs.state.Lines.{line_value, said_in, Tick};

use crate::tape::LONGEST_TAPE;
use crate::tick::{TickRecord, is_tick, tick_record};
use crate::window::names_ticks;
use bumpalo::Bump;
use json::{Error, Reader, Scratch, Value};
use json_fields::{MAX_DEPTH, is_plain_in};
use simdutf8::compat::from_utf8;
use std::alloc::{AllocError, Allocator, Global};
use tick_lines::entries_of;

/// A writer of which this many lines in a row are not plain is taken for one whose lines are not.
const MISSES: u32 = 4;

/// Of such a writer no more lines in a row are left untried than these.
const MOST_UNTRIED: u32 = 32;

/// A map of samples or of resizes in a plain line has at most this many members: each of its names needs a look for the
/// name's last member. `serde_json` keeps each name once.
const MOST_MEMBERS: usize = 64;

/// Goes on if the text is no JSON. Returns `Err` only if an allocation fails.
pub(crate) fn refused_memory(error: Error) -> Result<(), AllocError>
    ensures refused { OnErr result (error ≡ OutOfMemory) }
    ensures not_json { OnOk result (error ≢ OutOfMemory) }
{
    match error {
        Error::OutOfMemory => Err(AllocError),
        Error::Invalid | Error::TooLong | Error::DuplicateKey => Ok(()),
    }
}

/// Which lines are worth a try to read them as plain ones: all except those after several that were not. Then one line
/// is left untried before the next try, and after each try in vain twice as many: a few lines that are not plain leave
/// few others untried.
#[derive(Clone, Copy)]
pub(crate) struct Tries {
    /// This many lines in a row that were tried were not plain ones.
    missed: u32,
    /// This many lines are left untried before the next try.
    untried: u32,
    /// This many lines were left untried before the last try.
    pause: u32,
}

impl Tries {
    fn new() -> Tries {
        Tries {
            missed: 0,
            untried: 0,
            pause: 0,
        }
    }

    /// Whether the next line is tried; if not, it counts as one that was left untried.
    pub(crate) fn tries_next(&mut self) -> bool {
        if self.untried == 0 {
            return true;
        }
        self.untried -= 1;
        false
    }

    /// A line was tried, and was a plain one or not.
    pub(crate) fn note(&mut self, is_plain: bool) {
        if is_plain {
            *self = Tries::new();
            return;
        }
        self.missed = self.missed.saturating_add(1);
        if self.missed >= MISSES {
            self.pause = self.pause.saturating_mul(2).clamp(1, MOST_UNTRIED);
            self.untried = self.pause;
        }
    }
}

/// What is kept from line to line: where texts are unescaped, the memory of a line's values, which is freed at once,
/// and which lines are worth a try.
#[derive(Drop)]
pub struct LineBuffers {
    pub(crate) scratch: Scratch,
    values: Bump,
    pub(crate) tries: Tries,
}

impl LineBuffers {
    /// Nothing is kept yet. Doesn't allocate.
    pub fn new(alloc: Global) -> LineBuffers {
        LineBuffers {
            scratch: Scratch::new(alloc),
            values: Bump::new(alloc),
            tries: Tries::new(),
        }
    }
}

/// The one value of the text, if it has one that nests no deeper than [`MAX_DEPTH`].
fn only_value<'a, A: Allocator + Copy>(
    text: &'a str,
    scratch: &'a mut Scratch,
    values: A,
) -> Result<Option<Value<'a, A>>, AllocError>
    ensures { IfOk result (λ found. IfSome found (λ v. line_value text.now ≡ Some (value_view v))) }
{
    let Ok(mut reader) = Reader::new(text, scratch) else {
        return Err(AllocError);
    };
    match Value::read(values, &mut reader, MAX_DEPTH) {
        Ok(value) => Ok(if reader.next().is_none() {
            Some(value)
        } else {
            None
        }),
        Err(error) => {
            refused_memory(error)?;
            Ok(None)
        }
    }
}

/// Whether a member of the line is an object of many members.
fn has_many<A: Allocator>(line: &Value<'_, A>, name: &str) -> bool {
    match line.get(name) {
        Some(Value::Object(members)) => members.len() > MOST_MEMBERS,
        _ => false,
    }
}

/// Whether one of the line's maps of samples has many members, and no entry before them is at fault.
fn has_many_samples<A: Allocator>(alloc: Global, line: &Value<'_, A>) -> bool {
    if !has_many(line, "signals") && !has_many(line, "afterReclaim") {
        return false;
    }
    let entries = entries_of(alloc, line);
    let are_read = entries.is_ok();
    drop(entries);
    are_read
}

/// Whether one of the line's entries has a map of resizes with many members.
fn has_many_resizes<A: Allocator>(line: &Value<'_, A>) -> bool {
    match line.get("pods") {
        Some(Value::Array(entries)) => entries.iter().any(|entry| has_many(entry, "resized")),
        _ => false,
    }
}

/// The content of the text, if it is a tick line, each of its numbers consists of digits alone and is below 2^64, and
/// no map of samples or of resizes that is read has many members: so a line is read some four times as fast as by
/// `serde_json`, which reads the others.
#[tactic(auto, using(crate::proofs::Said::plain_said))]
fn tick_in<A: Allocator + Copy>(
    alloc: Global,
    line: &[u8],
    scratch: &mut Scratch,
    values: A,
) -> Result<Option<TickRecord>, AllocError>
    ensures { IfOk result (λ found. IfSome found (λ tick. said_in line.now ≡ Tick tick.at tick.written)) }
{
    let Ok(text) = from_utf8(line) else {
        return Ok(None);
    };
    let Some(value) = only_value(text, scratch, values)? else {
        return Ok(None);
    };
    if !is_plain_in(&value) || !is_tick(&value) {
        return Ok(None);
    }
    if has_many_samples(alloc, &value) || has_many_resizes(&value) {
        return Ok(None);
    }
    Ok(Some(tick_record(alloc, &value)?))
}

/// The record of a plain tick line, if it is one; the memory of the line's values is freed.
pub(crate) fn plain_tick(
    alloc: Global,
    line: &[u8],
    buffers: &mut LineBuffers,
) -> Result<Option<TickRecord>, AllocError>
    ensures { IfOk result (λ found. IfSome found (λ tick. said_in line.now ≡ Tick tick.at tick.written)) }
{
    if !names_ticks(line) || !buffers.tries.tries_next() {
        return Ok(None);
    }
    let found = if line.len() > LONGEST_TAPE {
        // lists that grow leave what they were in the arena, which is much for a long line
        tick_in(alloc, line, &mut buffers.scratch, alloc)
    } else {
        tick_in(alloc, line, &mut buffers.scratch, &buffers.values)
    };
    // no value is left; if one stayed all the same, the next line's would come after it
    let _given_up = buffers.values.reset();
    buffers.tries.note(matches!(found, Ok(Some(_))));
    found
}
