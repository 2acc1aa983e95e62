//! Words and numbers, appended to a text.

ghost use Rattle.std.specs.Prelude.{◌≡◌, ◌++◌, OnOk, OnErr, string_bytes, take};
ghost use Rattle.std.specs.String.Boundary.{IsSplitPoint};
ghost use Rattle.event_list.specs.state.Text.{Extends};

use itoa::{Buffer, Integer};
use std::alloc::AllocError;

pub(crate) fn add(text: &mut String, words: &str) -> Result<(), AllocError>
    ensures ok { OnOk result (string_bytes text.new ≡ string_bytes text.old ++ words.now) }
    ensures more { Extends (string_bytes text.old) (string_bytes text.new) }
{
    text.push_str(words)
}

/// Cuts the text back to the length that it had, if an allocation failed for a part of what was to be added.
pub(crate) fn whole_or_nothing(
    text: &mut String,
    length: usize,
    added: Result<(), AllocError>,
) -> Result<(), AllocError>
    requires { IsSplitPoint (string_bytes text.old) length }
    ensures same { result ≡ added }
    ensures ok { OnOk result (string_bytes text.new ≡ string_bytes text.old) }
    ensures err { OnErr result (string_bytes text.new ≡ take length (string_bytes text.old)) }
{
    if added.is_err() {
        text.truncate(length);
    }
    added
}

/// Appends the words, and then the number in decimal digits. If an allocation fails, the text stays as it was.
pub fn add_with_number<N: Integer>(
    text: &mut String,
    words: &str,
    number: N,
) -> Result<(), AllocError>
    ensures ok { OnOk result (string_bytes text.new ≡ string_bytes text.old ++ (words.now ++ N.text number)) }
    ensures err { OnErr result (string_bytes text.new ≡ string_bytes text.old) }
{
    let length = text.len();
    text.push_str(words)?;
    let mut digits = Buffer::new();
    let added = text.push_str(digits.format(number));
    whole_or_nothing(text, length, added)
}
