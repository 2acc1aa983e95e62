//! A limit that is a quantity or a percentage.

ghost use Rattle.std.specs.Prelude.{◌≡◌, ◌≤◌, IfSome};
ghost use Rattle.quantity.specs.rule.Limit.{limit_of, amount_of};
ghost use Rattle.quantity.specs.state.Limit.{HasItsCapacity};
ghost use Rattle.quantity.specs.rule.Quantity.{greatest_quantity};

use crate::fault::QuantityFault;
use crate::percent::Percent;
use crate::quantity::Quantity;

/// The value of an eviction threshold or of a minimum reclaim: an amount, or a share of the
/// signal's capacity. (Kubernetes, "Node-pressure Eviction", "Eviction thresholds".)
#[derive(Clone, Copy, Debug, PartialEq, Eq, Hash)]
pub enum Limit {
    /// An amount, in the signal's own unit.
    Quantity(Quantity),
    /// A share of the signal's capacity.
    Percent(Percent),
}

impl Limit {
    /// Reads a percentage where the text ends with `%`, and a quantity from any other text. The fault is the first
    /// one of the text, in the order of [`Percent::parse`] or of [`Quantity::parse`].
    #[tactic(auto, unfolding(crate::specs::rule::Limit::limit_of))]
    pub fn parse(text: &[u8]) -> Result<Limit, QuantityFault>
        ensures { result ≡ limit_of text.now }
    {
        if text.last() == Some(&b'%') {
            Ok(Limit::Percent(Percent::parse(text)?))
        } else {
            Ok(Limit::Quantity(Quantity::parse(text)?))
        }
    }

    /// The amount that the limit stands for, in thousandths: a quantity itself, and of a percentage
    /// that share of the signal's capacity, rounded down. The capacity is in thousandths too.
    pub fn amount(self, capacity: Option<u128>) -> u128
        requires percentage { HasItsCapacity capacity self }
        requires capacity { IfSome capacity (λ c. c ≤ greatest_quantity) }
        ensures value { result ≡ amount_of capacity self }
        ensures within { result ≤ greatest_quantity }
    {
        match self {
            Limit::Quantity(quantity) => quantity.milli(),
            Limit::Percent(percent) => match capacity {
                Some(capacity) => percent.of(capacity),
                None => 0,
            },
        }
    }
}
