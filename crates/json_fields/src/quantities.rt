//! Reading a quantity or a limit.

ghost use Rattle.std.specs.Prelude.{◌≡◌};
ghost use Rattle.json_fields.specs.rule.Quantities.{quantity_in, limit_in, units_in};

use crate::fault::FieldFault;
use crate::signal_map::ReadSignal;
use crate::value::Json;
use quantity::{Limit, Quantity, QuantityFault};
use signals::Signal;

/// The quantity that a value holds: a text of one, or a whole number of units, from 0 to 2^64 - 1,
/// and the greatest quantity where that is more. A negative whole number has the fault `Negative`.
/// (Kubernetes, "Quantity" of the resource pages.)
pub fn quantity_in<V: Json>(value: &V) -> Result<Quantity, FieldFault>
    ensures { result ≡ quantity_in (V.data value.now) }
{
    match value.text() {
        Some(text) => Ok(Quantity::parse(text.as_bytes())?),
        None => units_in(value),
    }
}

/// The limit that a value holds: a text that ends with `%` is a percentage, and any other value a
/// quantity. (Kubernetes, "Node-pressure Eviction", "Eviction thresholds".)
pub fn limit_in<V: Json>(value: &V) -> Result<Limit, FieldFault>
    ensures { result ≡ limit_in (V.data value.now) }
{
    match value.text() {
        Some(text) => Ok(Limit::parse(text.as_bytes())?),
        None => Ok(Limit::Quantity(units_in(value)?)),
    }
}

fn units_in<V: Json>(value: &V) -> Result<Quantity, FieldFault>
    ensures { result ≡ units_in (V.data value.now) }
{
    match value.unsigned() {
        Some(units) => Ok(Quantity::from_units(units)),
        None if value.signed().is_some() => Err(FieldFault::Faulty(QuantityFault::Negative)),
        None => Err(FieldFault::WrongKind),
    }
}

/// The quantities of signals, each of which may be left out. One that is faulty has this fault.
#[derive(Clone, Copy)]
pub struct QuantityMap<E> {
    pub fault: E,
}

impl<E: Copy> ReadSignal for QuantityMap<E> {
    ghost use Rattle.json_fields.specs.rule.Quantities.{quantity_or};

    type Read = Option<Quantity>;

    type Fault = E;

    ghost read_of = { λ reader signal found. quantity_or reader.fault found };

    fn read<V: Json>(&self, _signal: Signal, found: Option<&V>) -> Result<Option<Quantity>, E> {
        let Some(value) = found else {
            return Ok(None);
        };
        match quantity_in(value) {
            Ok(quantity) => Ok(Some(quantity)),
            Err(_) => Err(self.fault),
        }
    }
}
