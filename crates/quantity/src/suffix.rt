//! The suffix of a quantity, as `Gi`, `m` and `e3`.

ghost use Rattle.std.specs.Prelude.{◌≡◌, ◌≤◌, ◌<◌, ◌^◌, IfSome};
ghost use Rattle.quantity.specs.rule.Suffix.{factor_of, decimal_factor, binary_factor, exponent_factor, power_of};
ghost use Rattle.quantity.specs.rule.Suffix.{begins_exponent, suffix_fault, times, divided_by};
ghost use Rattle.quantity.specs.state.Suffix.{IsInBounds};

use crate::digits::{decimal, split_digits};
use crate::fault::QuantityFault;

/// By how much a suffix scales its number: a pair of whole numbers, since `m` divides.
#[derive(Clone, Copy)]
pub(crate) struct Factor {
    pub numerator: u128,
    pub denominator: u128,
}

impl Factor {
    fn times(n: u128) -> Factor
        ensures { result ≡ times n }
    {
        Factor {
            numerator: n,
            denominator: 1,
        }
    }

    fn divided_by(n: u128) -> Factor
        ensures { result ≡ divided_by n }
    {
        Factor {
            numerator: 1,
            denominator: n,
        }
    }

    /// The factor of a suffix, and none for any other text.
    #[tactic(auto, unfolding(crate::specs::rule::Suffix::factor_of))]
    pub(crate) fn of(suffix: &[u8]) -> Option<Factor>
        ensures factor { result ≡ factor_of suffix.now }
        ensures bounds { IfSome result IsInBounds }
    {
        match suffix {
            [] => Some(Factor::times(1)),
            [letter] => decimal_factor(*letter),
            [letter, b'i'] => binary_factor(*letter),
            _ if begins_exponent(suffix) => exponent_factor(suffix.split_at(1).1),
            _ => None,
        }
    }
}

/// The fault of an unknown suffix.
pub(crate) fn fault_of(suffix: &[u8]) -> QuantityFault
    ensures { result ≡ suffix_fault suffix.now }
{
    if begins_exponent(suffix) {
        QuantityFault::Exponent
    } else {
        QuantityFault::BadSuffix
    }
}

/// Whether a suffix begins as an exponent.
fn begins_exponent(suffix: &[u8]) -> bool
    ensures { result ≡ begins_exponent suffix.now }
{
    matches!(suffix, [b'e' | b'E', ..])
}

/// The factor of a suffix of one letter.
fn decimal_factor(letter: u8) -> Option<Factor>
    ensures factor { result ≡ decimal_factor letter }
    ensures bounds { IfSome result IsInBounds }
{
    match letter {
        b'n' => Some(Factor::divided_by(1_000_000_000)),
        b'u' => Some(Factor::divided_by(1_000_000)),
        b'm' => Some(Factor::divided_by(1000)),
        b'k' => Some(Factor::times(1000)),
        b'M' => Some(Factor::times(1_000_000)),
        b'G' => Some(Factor::times(1_000_000_000)),
        b'T' => Some(Factor::times(1_000_000_000_000)),
        b'P' => Some(Factor::times(1_000_000_000_000_000)),
        b'E' => Some(Factor::times(1_000_000_000_000_000_000)),
        _ => None,
    }
}

/// The factor of a suffix of a letter and `i`.
fn binary_factor(letter: u8) -> Option<Factor>
    ensures factor { result ≡ binary_factor letter }
    ensures bounds { IfSome result IsInBounds }
{
    match letter {
        b'K' => Some(Factor::times(1 << 10)),
        b'M' => Some(Factor::times(1 << 20)),
        b'G' => Some(Factor::times(1 << 30)),
        b'T' => Some(Factor::times(1 << 40)),
        b'P' => Some(Factor::times(1 << 50)),
        b'E' => Some(Factor::times(1 << 60)),
        _ => None,
    }
}

/// The factor of what follows an `e` or `E`: perhaps a sign, and one or two digits.
fn exponent_factor(text: &[u8]) -> Option<Factor>
    ensures factor { result ≡ exponent_factor text.now }
    ensures bounds { IfSome result IsInBounds }
{
    match text {
        [b'-', digits @ ..] => power(digits).map(Factor::divided_by),
        [b'+', digits @ ..] => power(digits).map(Factor::times),
        digits => power(digits).map(Factor::times),
    }
}

/// Ten to the power that one or two digits write, up to 18.
fn power(digits: &[u8]) -> Option<u128>
    ensures power { result ≡ power_of digits.now }
    ensures bounds { IfSome result (λ n. (0 < n) × (n ≤ 10 ^ 18)) }
{
    if digits.is_empty() {
        return None;
    }
    if digits.len() > 2 {
        return None;
    }
    let (front, rest) = split_digits(digits);
    if !rest.is_empty() {
        return None;
    }
    let exponent = decimal(front);
    if exponent > 18 {
        return None;
    }
    Some(10u128.pow(exponent as u32))
}
