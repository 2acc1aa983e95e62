//! A tick line, read by itself.

ghost use Rattle.std.specs.Prelude.{◌≡◌, Err, IfOk, IsOk, option_map};
ghost use Rattle.tick_lines.specs.declared.fault.TickLineFault.TheVariants.{Usage};
ghost use Rattle.tick_lines.specs.rule.Line.{tick_line_of};
ghost use Rattle.json_lines.specs.state.Ticks.{is_tick, moment_written, moment_at};

use json_fields::{Json, field, text_at};
use std::alloc::{AllocError, Global};
use tick_lines::{TickLine, TickLineFault, TickValue, tick_line_of};

/// The content of a tick line by itself: the tree of its JSON value is no longer needed.
#[derive(Drop)]
pub struct TickRecord {
    /// The whole number that it gives as its moment, in seconds.
    pub at: Option<u64>,
    /// The contents of the line except its moment, or the line's first fault.
    pub written: Result<TickLine, TickLineFault>,
}

/// Whether a JSON value is a tick by its kind.
pub(crate) fn is_tick<V: Json>(line: &V) -> bool
    ensures { result ≡ is_tick (V.data line.now) }
{
    text_at(line, "kind") == Some("tick")
}

/// The whole number that is found.
pub(crate) fn moment_written<V: Json>(found: Option<&V>) -> Option<u64>
    ensures { result ≡ moment_written (option_map (λ v. V.data v.now) found.entry) }
{
    found?.unsigned()
}

/// The moment of a tick line, and its other contents. Returns `Err` only if an allocation fails and the line has no
/// fault.
pub fn tick_record<V: TickValue>(alloc: Global, line: &V) -> Result<TickRecord, AllocError>
    ensures at { IfOk result (λ tick. tick.at ≡ moment_at (V.data line.now)) }
    ensures written { IfOk result (λ tick. tick.written ≡ tick_line_of (V.data line.now)) }
    ensures faults { tick_line_of (V.data line.now) ≡ Err Usage → IsOk result }
{
    let at = moment_written(field(line, "at"));
    match tick_line_of(alloc, line) {
        Err(TickLineFault::OutOfMemory) => Err(AllocError),
        written => Ok(TickRecord { at, written }),
    }
}
