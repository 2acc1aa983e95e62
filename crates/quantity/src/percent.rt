//! Percentages, as `12.5%`.

ghost use Rattle.std.specs.Prelude.{◌≡◌, ◌≤◌, ◌-◌, ◌*◌, ◌^◌, ℕ, length, IfOk, IfErr, OnErr};
ghost use Rattle.quantity.specs.state.Digits.{AllDigits};
ghost use Rattle.quantity.specs.rule.Percent.{percent_of, hundredths_of, share_of};
ghost use Rattle.quantity.specs.state.Percent.{HasHundredths, HasPercentFault};
ghost use Rattle.quantity.specs.rule.Quantity.{greatest_quantity};

use crate::digits::decimal;
use crate::fault::QuantityFault;
use crate::number::Number;
use std::fmt;
use std::marker::Model;

/// A percentage from 0 to 100, in steps of a hundredth of a percent.
/// (Kubernetes, "Node-pressure Eviction", "Eviction thresholds".)
#[derive(Clone, Copy, Debug, PartialEq, Eq, PartialOrd, Ord, Hash)]
pub struct Percent(u32);

impl Model for Percent {
    ghost Value = { ℕ };

    ghost view = { λ p. p.0 };

    ghost invariant = { λ p. p.0 ≤ 10000 };

    ghost inverse = { λ n. record { 0 = n } };
}

impl Percent {
    /// Reads one to three digits, perhaps a point with one or two digits, and `%`.
    ///
    /// The fault is the first of these: `Empty`; `Negative`; `BadDigit` where no digit stands
    /// first, or none after the point; `TooManyDigits` for more than three digits before the point
    /// or two after it; `BadSuffix` where the rest is not `%`; `TooManyDigits` above 100.
    #[tactic(auto, using(crate::proofs::PercentMeaning::percent_sound))]
    pub fn parse(text: &[u8]) -> Result<Percent, QuantityFault>
        ensures reading { result ≡ percent_of text.now }
        ensures meaning { IfOk result (HasHundredths text.now) }
        ensures refused { OnErr result ((n : ℕ) → ¬ HasHundredths text.now n) }
        ensures fault { IfErr result (HasPercentFault text.now) }
    {
        Percent::read(text)
    }

    /// The percentage of this many hundredths of a percent.
    pub fn from_hundredths(hundredths: u32) -> Percent
        requires { hundredths ≤ 10000 }
        ensures { result ≡ hundredths }
    {
        Percent(hundredths)
    }

    /// The percentage in hundredths of a percent, at most 10000.
    pub fn hundredths(self) -> u32
        ensures value { result ≡ self }
        ensures bound { result ≤ 10000 }
    {
        self.0
    }

    /// This share of a capacity, rounded down. Both are in thousandths.
    pub fn of(self, capacity: u128) -> u128
        requires { capacity ≤ greatest_quantity }
        ensures share { result ≡ share_of self capacity }
        ensures within { result ≤ capacity }
    {
        capacity * u128::from(self.0) / 10000
    }

    /// The percentage that a text writes, or the first fault.
    #[tactic(auto, unfolding(crate::specs::rule::Percent::percent_of))]
    fn read(text: &[u8]) -> Result<Percent, QuantityFault>
        ensures { result ≡ percent_of text.now }
    {
        if text.is_empty() {
            return Err(QuantityFault::Empty);
        }
        if text.first() == Some(&b'-') {
            return Err(QuantityFault::Negative);
        }
        let number = Number::at(text);
        if number.whole.is_empty() || number.has_point && number.fraction.is_empty() {
            return Err(QuantityFault::BadDigit);
        }
        if number.whole.len() > 3 || number.fraction.len() > 2 {
            return Err(QuantityFault::TooManyDigits);
        }
        if number.rest != b"%".as_slice() {
            return Err(QuantityFault::BadSuffix);
        }
        let hundredths = in_hundredths(number.whole, number.fraction);
        if hundredths > 10000 {
            return Err(QuantityFault::TooManyDigits);
        }
        Ok(Percent(hundredths))
    }
}

impl fmt::Display for Percent {
    ghost use Rattle.quantity.specs.state.Percent.{percent_text};
    ghost use Rattle.std.specs.Prelude.{Some};

    ghost output = { λ p. Some (percent_text p) };

    /// The percentage with no digit after its point, as `10%`, or with two, as `12.50%`.
    fn fmt<W: fmt::Write>(&self, f: &mut fmt::Formatter<W>) -> fmt::Result {
        let whole = self.0 / 100;
        let tenths = self.0 / 10 % 10;
        let hundredths = self.0 % 10;
        if self.0 % 100 == 0 {
            write!(f, "{whole}%")
        } else {
            write!(f, "{whole}.{tenths}{hundredths}%")
        }
    }
}

/// The number in hundredths, of at most three digits before the point and two after it.
fn in_hundredths(whole: &[u8], fraction: &[u8]) -> u32
    requires whole_digits { AllDigits whole.now }
    requires fraction_digits { AllDigits fraction.now }
    requires few_whole { length whole.now ≤ 3 }
    requires few_fraction { length fraction.now ≤ 2 }
    ensures { result ≡ hundredths_of whole.now fraction.now }
{
    let scale = if fraction.len() == 1 { 10 } else { 1 };
    (decimal(whole) * 100 + decimal(fraction) * scale) as u32
}
