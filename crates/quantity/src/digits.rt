//! Runs of decimal digits.

ghost use Rattle.std.specs.Prelude.{◌≡◌, ◌≤◌, ◌<◌, ◌^◌, ◌+◌, length};
ghost use Rattle.std.specs.List.{prefix_len};
ghost use Rattle.std.specs.Char.{is_ascii_digit};
ghost use Rattle.std.specs.Str.Parse.{digits_value};
ghost use Rattle.quantity.specs.rule.Digits.{leading_digits, after_digits};
ghost use Rattle.quantity.specs.state.Digits.{AllDigits};

/// How many decimal digits the text begins with.
pub(crate) fn count_digits(text: &[u8]) -> usize
    ensures { result ≡ prefix_len is_ascii_digit text.now }
{
    for (i, byte) in text.iter().enumerate() {
        if !byte.is_ascii_digit() {
            return i;
        }
    }
    text.len()
}

/// The digits that the text begins with, and what follows them.
pub(crate) fn split_digits(text: &[u8]) -> (&[u8], &[u8])
    ensures digits { result.0.now ≡ leading_digits text.now }
    ensures rest { result.1.now ≡ after_digits text.now }
    ensures all_digits { AllDigits result.0.now }
    ensures whole_text { length result.0.now + length result.1.now ≡ length text.now }
{
    text.split_at(count_digits(text))
}

/// The number that at most 17 decimal digits write, and 0 for none.
pub(crate) fn decimal(digits: &[u8]) -> u64
    requires digits { AllDigits digits.now }
    requires short { length digits.now ≤ 17 }
    ensures value { result ≡ digits_value 10 digits.now }
    ensures bound { result < 10 ^ length digits.now }
{
    let mut value = 0;
    for byte in digits {
        value = value * 10 + u64::from(*byte - b'0');
    }
    value
}
