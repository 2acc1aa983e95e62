//! Fields of a tick line, all of which have one fault.

ghost use Rattle.std.specs.Prelude.{map, option_map};
ghost use Rattle.tick_lines.specs.declared.fault.TickLineFault.TheVariants.{Usage};
ghost use Rattle.json_fields.specs.rule.Reading.{some_or};
ghost use Rattle.json_fields.specs.state.Reading.{GivesExactly, GivesUnless};
ghost use Rattle.tick_lines.specs.state.Memory.{is_memory};
ghost use Rattle.tick_lines.specs.rule.Fields.{items_of, only_object, quantity_at};

use crate::fault::TickLineFault;
use json_fields::{Json, quantity_in};
use manifest::Text;
use quantity::Quantity;
use std::alloc::Global;

/// A text that has to be there.
pub(crate) fn written_text(found: Option<&str>) -> Result<&str, TickLineFault>
    ensures { GivesExactly (λ s. s.now) result (some_or Usage (option_map (λ s. s.now) found.entry)) }
{
    match found {
        None => Err(TickLineFault::Usage),
        Some(text) => Ok(text),
    }
}

/// The text of a field that has to be there.
pub(crate) fn text_of(alloc: Global, found: Option<&str>) -> Result<Text, TickLineFault>
    ensures { GivesUnless is_memory (λ t. t) result (some_or Usage (option_map (λ s. s.now) found.entry)) }
{
    let text = written_text(found)?;
    Ok(Text::new(String::from_str(alloc, text)?))
}

/// The items of an array that may be left out.
pub(crate) fn items_of<V: Json>(found: Option<&V>) -> Result<&[V], TickLineFault>
    ensures { GivesExactly (λ v. map V.data v.now) result (items_of (option_map (λ v. V.data v.now) found.entry)) }
{
    let Some(value) = found else {
        return Ok(&[]);
    };
    match value.items() {
        None => Err(TickLineFault::Usage),
        Some(items) => Ok(items),
    }
}

/// A value that has to be an object.
pub(crate) fn only_object<V: Json>(value: &V) -> Result<(), TickLineFault>
    ensures { GivesExactly (λ t. t) result (only_object (V.data value.now)) }
{
    if value.is_object() {
        Ok(())
    } else {
        Err(TickLineFault::Usage)
    }
}

/// A quantity that may be left out.
pub(crate) fn quantity_at<V: Json>(found: Option<&V>) -> Result<Option<Quantity>, TickLineFault>
    ensures { GivesExactly (λ q. q) result (quantity_at (option_map (λ v. V.data v.now) found.entry)) }
{
    let Some(value) = found else {
        return Ok(None);
    };
    Ok(Some(quantity_in(value)?))
}
