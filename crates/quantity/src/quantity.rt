//! Quantities, as `1.5Gi`.

ghost use Rattle.std.specs.Prelude.{◌≡◌, ◌≤◌, ◌<◌, ◌+◌, ◌-◌, ◌*◌, ◌^◌, ℕ, length, min, IfOk, IfErr, OnErr};
ghost use Rattle.std.specs.Int.{div_ceil};
ghost use Rattle.quantity.specs.state.Digits.{AllDigits};
ghost use Rattle.quantity.specs.state.Suffix.{IsInBounds};
ghost use Rattle.quantity.specs.rule.Quantity.{quantity_of, scaled_number_of};
ghost use Rattle.quantity.specs.state.Quantity.{HasThousandths, HasQuantityFault};
ghost use Rattle.quantity.specs.rule.Quantity.{number_value, thousandths_of, after_plus, greatest_quantity};

use crate::digits::decimal;
use crate::fault::QuantityFault;
use crate::form::printed_form;
use crate::number::Number;
use crate::suffix::{Factor, fault_of};
use std::fmt;
use std::marker::Model;

/// An amount of a resource, in whole thousandths of its unit: of a byte, a CPU, an inode.
/// (Kubernetes, "Quantity" of the resource pages; the limits are this project's own.)
#[derive(Clone, Copy, Debug, PartialEq, Eq, PartialOrd, Ord, Hash)]
pub struct Quantity(u128);

/// No quantity is larger, in thousandths.
const GREATEST: u128 = 1000 * ((1 << 63) - 1);

impl Model for Quantity {
    ghost use Rattle.std.specs.Prelude.{ℕ, ◌≤◌};
    ghost use Rattle.quantity.specs.rule.Quantity.{greatest_quantity};

    ghost Value = { ℕ };

    ghost view = { λ q. q.0 };

    ghost invariant = { λ q. q.0 ≤ greatest_quantity };

    ghost inverse = { λ n. record { 0 = n } };
}

impl Quantity {
    /// Reads an optional `+`, a number of at most 17 digits with at most one point, and a suffix.
    /// What is no whole number of thousandths is rounded up, and anything above 2^63 - 1 units
    /// is read as 2^63 - 1 units.
    ///
    /// The fault is the first of these: `Empty`; `Negative`; `BadDigit` where the number has no
    /// digit; `TooManyDigits`; `Exponent` for an unknown suffix that begins with `e` or `E`, and
    /// `BadSuffix` for any other.
    #[tactic(auto, using(crate::proofs::QuantityMeaning::quantity_sound))]
    pub fn parse(text: &[u8]) -> Result<Quantity, QuantityFault>
        ensures reading { result ≡ quantity_of text.now }
        ensures meaning { IfOk result (HasThousandths text.now) }
        ensures refused { OnErr result ((n : ℕ) → ¬ HasThousandths text.now n) }
        ensures fault { IfErr result (HasQuantityFault text.now) }
    {
        Quantity::read(text)
    }

    /// This many whole units, and the greatest quantity where that is more.
    pub fn from_units(units: u64) -> Quantity
        ensures { result ≡ min (1000 * units) greatest_quantity }
    {
        Quantity((1000 * u128::from(units)).min(GREATEST))
    }

    /// The quantity in thousandths of a unit, at most 1000 * (2^63 - 1).
    pub fn milli(self) -> u128
        ensures value { result ≡ self }
        ensures bound { result ≤ greatest_quantity }
    {
        self.0
    }

    /// The quantity that a text writes, or the first fault.
    #[tactic(auto, unfolding(crate::specs::rule::Quantity::quantity_of))]
    fn read(text: &[u8]) -> Result<Quantity, QuantityFault>
        ensures { result ≡ quantity_of text.now }
    {
        if text.is_empty() {
            return Err(QuantityFault::Empty);
        }
        if text.first() == Some(&b'-') {
            return Err(QuantityFault::Negative);
        }
        Ok(Quantity(scaled_number(without_plus(text))?))
    }
}

/// The text without the plus that it may begin with.
fn without_plus(text: &[u8]) -> &[u8]
    ensures rest { result.now ≡ after_plus text.now }
    ensures shorter { length result.now ≤ length text.now }
{
    match text {
        [b'+', rest @ ..] => rest,
        _ => text,
    }
}

/// The thousandths of a number and its suffix.
#[tactic(auto, unfolding(crate::specs::rule::Quantity::scaled_number_of))]
fn scaled_number(text: &[u8]) -> Result<u128, QuantityFault>
    ensures value { result ≡ scaled_number_of text.now }
    ensures bound { IfOk result (λ n. n ≤ greatest_quantity) }
{
    let number = Number::at(text);
    let digits = number.whole.len() + number.fraction.len();
    if digits == 0 {
        return Err(QuantityFault::BadDigit);
    }
    if digits > 17 {
        return Err(QuantityFault::TooManyDigits);
    }
    let Some(factor) = Factor::of(number.rest) else {
        return Err(fault_of(number.rest));
    };
    let value = digits_of(number.whole, number.fraction);
    Ok(scaled(value, number.fraction.len() as u32, factor))
}

/// The number that at most 17 digits write, without their point.
fn digits_of(whole: &[u8], fraction: &[u8]) -> u128
    requires whole_digits { AllDigits whole.now }
    requires fraction_digits { AllDigits fraction.now }
    requires short { length whole.now + length fraction.now ≤ 17 }
    ensures value { result ≡ number_value whole.now fraction.now }
    ensures bound { result < 10 ^ 17 }
{
    u128::from(decimal(whole)) * 10u128.pow(fraction.len() as u32) + u128::from(decimal(fraction))
}

/// 1000 times a number with this many digits after its point, times a factor, rounded up and at most
/// the greatest quantity.
pub(crate) fn scaled(number: u128, places: u32, factor: Factor) -> u128
    requires number { number < 10 ^ 17 }
    requires places { places ≤ 17 }
    requires factor { IsInBounds factor }
    ensures value { result ≡ thousandths_of number places factor }
    ensures bound { result ≤ greatest_quantity }
{
    let above = 1000 * number * factor.numerator;
    let below = 10u128.pow(places) * factor.denominator;
    rounded_up(above, below).min(GREATEST)
}

/// A quotient, rounded up.
fn rounded_up(above: u128, below: u128) -> u128
    requires { 0 < below }
    ensures { result ≡ div_ceil above below }
{
    above.div_ceil(below)
}

impl fmt::Display for Quantity {
    ghost use Rattle.quantity.specs.state.Printed.{quantity_text};
    ghost use Rattle.std.specs.Prelude.{Some};

    ghost output = { λ q. Some (quantity_text q) };

    /// The units, as `5`, or the thousandths, as `1500m`, where they are no whole number of units.
    /// Where that has more than 17 digits, too many to be read back, a number of at most 17 digits
    /// with a suffix, as `3Ei`, if one is exactly the quantity.
    fn fmt<W: fmt::Write>(&self, f: &mut fmt::Formatter<W>) -> fmt::Result {
        let thousandths = self.0;
        if let Some(form) = printed_form(thousandths) {
            return write!(f, "{form}");
        }
        let units = thousandths / 1000;
        if thousandths % 1000 == 0 {
            write!(f, "{units}")
        } else {
            write!(f, "{thousandths}m")
        }
    }
}
