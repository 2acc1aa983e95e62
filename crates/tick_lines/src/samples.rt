//! The samples of the node's signals.

ghost use Rattle.std.specs.Prelude.{option_map};
ghost use Rattle.json_fields.specs.state.Reading.{GivesExactly};
ghost use Rattle.tick_lines.specs.rule.Samples.{samples_of};

use crate::fault::TickLineFault;
use json_fields::{Json, QuantityMap, Scope, read_map};
use quantity::Quantity;
use signals::BySignal;

/// The samples in an object that may be left out.
pub(crate) fn samples_of<V: Json>(
    scope: Scope,
    found: Option<&V>,
) -> Result<BySignal<Option<Quantity>>, TickLineFault>
    ensures { GivesExactly (λ s. s) result (samples_of scope (option_map (λ v. V.data v.now) found.entry)) }
{
    let fault = TickLineFault::Usage;
    read_map(scope, fault, &QuantityMap { fault }, found)
}
