//! The items of an array, each of which is read in the same way.

ghost use Rattle.std.specs.Prelude.{◌≡◌, map, option_map};
ghost use Rattle.json_fields.specs.rule.Reading.{each};
ghost use Rattle.tick_lines.specs.rule.Fields.{each_item};
ghost use Rattle.json_fields.specs.state.Reading.{checked, GivesUnless};
ghost use Rattle.tick_lines.specs.state.Memory.{is_memory};

use crate::fault::TickLineFault;
use crate::fields::items_of;
use crate::value::TickValue;
use lists::Sequence;
use std::alloc::Global;

/// How an item is read.
pub(crate) trait ReadItem: Drop + Sized {
    ghost use Rattle.std.specs.Prelude.{◌≡◌, Result};
    ghost use Rattle.serde_json.specs.Data.{Data};
    ghost use Rattle.json_fields.specs.state.Reading.{checked};
    ghost use Rattle.json_fields.specs.state.Reading.{GivesUnless};
    ghost use Rattle.tick_lines.specs.state.Memory.{is_memory};
    ghost use Rattle.tick_lines.specs.declared.fault.TickLineFault.{TickLineFault};

    /// What is read of an item, in the definition's words.
    ghost read_of: { Data → Result Self TickLineFault };

    /// The content of an item, or its first fault.
    fn read<V: TickValue>(alloc: Global, item: &V) -> Result<Self, TickLineFault>
        ensures { GivesUnless is_memory (λ r. r) result (read_of (V.data item.now)) };

    /// Whether an item can be read, or its fault. Doesn't allocate.
    fn check<V: TickValue>(item: &V) -> Result<(), TickLineFault>
        ensures { result ≡ checked (read_of (V.data item.now)) };
}

fn read_each<R: ReadItem, V: TickValue>(
    alloc: Global,
    values: &[V],
) -> Result<Sequence<R>, TickLineFault>
    ensures { GivesUnless is_memory (λ s. s) result (each R.read_of (map V.data values.now)) }
{
    let mut all = Sequence::from_vec(Vec::with_capacity(alloc, values.len())?);
    for value in values {
        let read = R::read(alloc, value)?;
        all.push(read)?;
    }
    Ok(all)
}

/// What is read of the items of an array that may be left out.
pub(crate) fn read_items<R: ReadItem, V: TickValue>(
    alloc: Global,
    found: Option<&V>,
) -> Result<Sequence<R>, TickLineFault>
    ensures { GivesUnless is_memory (λ s. s) result (each_item R.read_of (option_map (λ v. V.data v.now) found.entry)) }
{
    read_each::<R, V>(alloc, items_of(found)?)
}

fn check_each<R: ReadItem, V: TickValue>(values: &[V]) -> Result<(), TickLineFault>
    ensures { result ≡ checked (each R.read_of (map V.data values.now)) }
{
    for value in values {
        R::check(value)?;
    }
    Ok(())
}

/// Whether the items of an array that may be left out can be read, or their first fault. Doesn't allocate.
pub(crate) fn check_items<R: ReadItem, V: TickValue>(found: Option<&V>) -> Result<(), TickLineFault>
    ensures { result ≡ checked (each_item R.read_of (option_map (λ v. V.data v.now) found.entry)) }
{
    check_each::<R, V>(items_of(found)?)
}
