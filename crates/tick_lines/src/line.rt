//! A tick line, as it is written.

ghost use Rattle.std.specs.Prelude.{◌≡◌, IfErr, IsErrOf, codes};
ghost use Rattle.json_fields.specs.rule.Fields.{field_at};
ghost use Rattle.tick_lines.specs.rule.Entries.{entries_of};
ghost use Rattle.json_fields.specs.state.Reading.{GivesUnless, checked};
ghost use Rattle.tick_lines.specs.state.Memory.{is_memory};
ghost use Rattle.tick_lines.specs.rule.Line.{tick_line_of};

use crate::entry::TickEntry;
use crate::fault::TickLineFault;
use crate::items::{check_items, read_items};
use crate::samples::samples_of;
use crate::truth::{TruthMember, denial_of};
use crate::value::TickValue;
use json_fields::{Scope, field};
use lists::Sequence;
use quantity::Quantity;
use signals::BySignal;
use std::alloc::Global;

/// The contents of a tick line except its moment.
#[derive(Drop)]
pub struct TickLine {
    /// The pods' entries, in the order of the line.
    pub entries: Sequence<TickEntry>,
    /// What the node has left of each resource, in bytes, inodes and processes, where the line has
    /// a sample. (Kubernetes, "Node-pressure Eviction", "Eviction signals".)
    pub signals: BySignal<Option<Quantity>>,
    /// What the node has left of each resource of its file systems after images and dead containers were deleted,
    /// where the line has a sample. (Kubernetes, "Node-pressure Eviction", "Reclaiming node level resources".)
    pub after_reclaim: BySignal<Option<Quantity>>,
    /// Whether it marks the tick as no sync tick. (This project's extended format.)
    pub unjudged: TruthMember,
}

/// Reads the entries of a tick line, which come before its samples. `Usage` where one of them is faulty, and
/// `OutOfMemory` where there is no memory for them.
pub fn entries_of<V: TickValue>(
    alloc: Global,
    line: &V,
) -> Result<Sequence<TickEntry>, TickLineFault>
    ensures { GivesUnless is_memory (λ s. s) result (entries_of (field_at (codes "pods") (V.data line.now))) }
{
    read_items::<TickEntry, V>(alloc, field(line, "pods"))
}

#[tactic(auto, unfolding(crate::specs::rule::Line::tick_line_of))]
fn read_line<V: TickValue>(alloc: Global, line: &V) -> Result<TickLine, TickLineFault>
    ensures { GivesUnless is_memory (λ t. t) result (tick_line_of (V.data line.now)) }
{
    Ok(TickLine {
        entries: entries_of(alloc, line)?,
        signals: samples_of(Scope::Node, field(line, "signals"))?,
        after_reclaim: samples_of(Scope::FileSystems, field(line, "afterReclaim"))?,
        unjudged: denial_of(field(line, "judged")),
    })
}

/// Whether a tick line can be read, or its first fault. Doesn't allocate.
#[tactic(auto, unfolding(crate::specs::rule::Line::tick_line_of))]
fn check_line<V: TickValue>(line: &V) -> Result<(), TickLineFault>
    ensures { result ≡ checked (tick_line_of (V.data line.now)) }
{
    check_items::<TickEntry, V>(field(line, "pods"))?;
    samples_of(Scope::Node, field(line, "signals"))?;
    samples_of(Scope::FileSystems, field(line, "afterReclaim"))?;
    Ok(())
}

/// Reads a tick line, all but its moment. A field with the value null counts as absent, and a field
/// of another name is ignored, but for a name that is no signal's where signals are named. Exit
/// codes are read as far as they are codes, and never refused.
///
/// `Usage` where a field that has to be there is missing, or one has a value of another kind or out
/// of its range, a faulty quantity, or a signal that it may not name; so too where memory ran out before the reading
/// came to it. `OutOfMemory` only where there is no such fault.
pub fn tick_line_of<V: TickValue>(alloc: Global, line: &V) -> Result<TickLine, TickLineFault>
    ensures gives { GivesUnless is_memory (λ t. t) result (tick_line_of (V.data line.now)) }
    ensures faults { IfErr (tick_line_of (V.data line.now)) (IsErrOf result) }
{
    match read_line(alloc, line) {
        Ok(read) => Ok(read),
        Err(_) => {
            check_line(line)?;
            Err(TickLineFault::OutOfMemory)
        }
    }
}
