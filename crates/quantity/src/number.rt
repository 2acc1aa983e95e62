//! A number with a point, at the beginning of a text.

ghost use Rattle.std.specs.Prelude.{◌≡◌, ◌≤◌, ◌+◌, length};
ghost use Rattle.quantity.specs.state.Digits.{AllDigits};
ghost use Rattle.quantity.specs.rule.Number.{whole_of, has_point, fraction_of, after_number};

use crate::digits::split_digits;

/// A run of digits with at most one point, the longest that a text begins with, and what follows
/// it.
#[derive(Clone, Copy)]
pub(crate) struct Number<'a> {
    /// The digits before the point.
    pub whole: &'a [u8],
    /// Whether there is a point.
    pub has_point: bool,
    /// The digits after the point.
    pub fraction: &'a [u8],
    /// What follows the number in the text.
    pub rest: &'a [u8],
}

impl<'a> Number<'a> {
    /// The run that a text begins with.
    pub(crate) fn at(text: &'a [u8]) -> Number<'a>
        ensures whole { result.whole.now ≡ whole_of text.now }
        ensures point { result.has_point ≡ has_point text.now }
        ensures fraction { result.fraction.now ≡ fraction_of text.now }
        ensures rest { result.rest.now ≡ after_number text.now }
        ensures whole_digits { AllDigits result.whole.now }
        ensures fraction_digits { AllDigits result.fraction.now }
        ensures short { length result.whole.now + length result.fraction.now ≤ length text.now }
    {
        let (whole, rest) = split_digits(text);
        if rest.first() == Some(&b'.') {
            let (fraction, rest) = split_digits(rest.split_at(1).1);
            Number {
                whole,
                has_point: true,
                fraction,
                rest,
            }
        } else {
            Number {
                whole,
                has_point: false,
                fraction: &[],
                rest,
            }
        }
    }
}
