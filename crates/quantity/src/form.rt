//! The texts that are printed of large quantities: which of them writes a quantity exactly.

ghost use Rattle.std.specs.Prelude.{◌≡◌, ◌≤◌, ◌<◌, ◌+◌, ◌-◌, ◌*◌, ◌/◌, ◌%◌, ◌^◌, Some, IfSome};
ghost use Rattle.quantity.specs.rule.Quantity.{greatest_quantity};
ghost use Rattle.quantity.specs.state.Printed.{scale_at, scale_suffix, scale_numerator, form_text, few_digits};
ghost use Rattle.quantity.specs.state.Printed.{least_number, exact_number, form_at, form_count, first_form};
ghost use Rattle.quantity.specs.state.Printed.{printed_form};

use crate::quantity::scaled;
use crate::suffix::Factor;
use std::fmt;

/// The suffixes with which large quantities are printed, in the order in which they are tried.
#[derive(Clone, Copy)]
pub(crate) enum Scale {
    Units,
    Exa,
    Peta,
    Tera,
    Giga,
    Mega,
    Kilo,
    Exbi,
    Pebi,
    Tebi,
    Gibi,
    Mebi,
    Kibi,
}

impl Scale {
    /// The scale at a place, the units first.
    fn at(place: u32) -> Scale
        ensures { result ≡ scale_at place }
    {
        match place {
            0 => Scale::Units,
            1 => Scale::Exa,
            2 => Scale::Peta,
            3 => Scale::Tera,
            4 => Scale::Giga,
            5 => Scale::Mega,
            6 => Scale::Kilo,
            7 => Scale::Exbi,
            8 => Scale::Pebi,
            9 => Scale::Tebi,
            10 => Scale::Gibi,
            11 => Scale::Mebi,
            _ => Scale::Kibi,
        }
    }

    /// By how much the suffix scales its number.
    fn numerator(self) -> u128
        ensures value { result ≡ scale_numerator self }
        ensures bounds { (0 < result) × (result ≤ 2 ^ 60) }
    {
        match self {
            Scale::Units => 1,
            Scale::Exa => 1_000_000_000_000_000_000,
            Scale::Peta => 1_000_000_000_000_000,
            Scale::Tera => 1_000_000_000_000,
            Scale::Giga => 1_000_000_000,
            Scale::Mega => 1_000_000,
            Scale::Kilo => 1000,
            Scale::Exbi => 1 << 60,
            Scale::Pebi => 1 << 50,
            Scale::Tebi => 1 << 40,
            Scale::Gibi => 1 << 30,
            Scale::Mebi => 1 << 20,
            Scale::Kibi => 1 << 10,
        }
    }

    fn suffix(self) -> &'static str
        ensures { result.now ≡ scale_suffix self }
    {
        match self {
            Scale::Units => "",
            Scale::Exa => "E",
            Scale::Peta => "P",
            Scale::Tera => "T",
            Scale::Giga => "G",
            Scale::Mega => "M",
            Scale::Kilo => "k",
            Scale::Exbi => "Ei",
            Scale::Pebi => "Pi",
            Scale::Tebi => "Ti",
            Scale::Gibi => "Gi",
            Scale::Mebi => "Mi",
            Scale::Kibi => "Ki",
        }
    }
}

/// A number, with this many digits after its point, and a suffix.
#[derive(Clone, Copy)]
pub(crate) struct Form {
    pub whole: u128,
    pub fraction: u128,
    pub places: usize,
    pub scale: Scale,
}

impl fmt::Display for Form {
    ghost output = { λ form. Some (form_text form) };

    /// The number, with no point where no digit follows it and no digit before it where that were a
    /// zero, and the suffix.
    fn fmt<W: fmt::Write>(&self, f: &mut fmt::Formatter<W>) -> fmt::Result {
        let Form {
            whole,
            fraction,
            places,
            scale,
        } = *self;
        let suffix = scale.suffix();
        if places == 0 {
            write!(f, "{whole}{suffix}")
        } else if whole == 0 {
            write!(f, ".{fraction:0places$}{suffix}")
        } else {
            write!(f, "{whole}.{fraction:0places$}{suffix}")
        }
    }
}

/// How many forms there are: 18 numbers of digits after the point, with 13 scales each.
const FORMS: u32 = 18 * 13;

/// The form that is printed of a quantity: none below 10^17 thousandths, and none where no form
/// writes it.
pub(crate) fn printed_form(thousandths: u128) -> Option<Form>
    requires bound { thousandths ≤ greatest_quantity }
    ensures { result ≡ printed_form thousandths }
{
    if thousandths < 10u128.pow(17) {
        None
    } else {
        exact_form(thousandths)
    }
}

/// The first form that writes a quantity exactly: by the digits after the point, and then by the
/// scale.
fn exact_form(thousandths: u128) -> Option<Form>
    requires some { 0 < thousandths }
    requires bound { thousandths ≤ greatest_quantity }
    ensures { result ≡ first_form thousandths form_count }
{
    for place in 0..FORMS {
        let form = form_at(thousandths, place);
        if form.is_some() {
            return form;
        }
    }
    None
}

/// The form at a place, where it writes the quantity exactly.
fn form_at(thousandths: u128, place: u32) -> Option<Form>
    requires some { 0 < thousandths }
    requires bound { thousandths ≤ greatest_quantity }
    requires place { place < form_count }
    ensures { result ≡ form_at thousandths place }
{
    let places = place / 13;
    let scale = Scale::at(place % 13);
    let number = exact_number(thousandths, places, scale.numerator())?;
    let unit = 10u128.pow(places);
    Some(Form {
        whole: number / unit,
        fraction: number % unit,
        places: places as usize,
        scale,
    })
}

/// The number of at most 17 digits, this many of them after the point, whose value is exactly the
/// quantity.
fn exact_number(thousandths: u128, places: u32, numerator: u128) -> Option<u128>
    requires some { 0 < thousandths }
    requires bound { thousandths ≤ greatest_quantity }
    requires places { places ≤ 17 }
    requires numerator { (0 < numerator) × (numerator ≤ 2 ^ 60) }
    ensures { result ≡ exact_number thousandths places numerator }
{
    let number = least_number(thousandths, places, numerator)?;
    let factor = Factor {
        numerator,
        denominator: 1,
    };
    (scaled(number, places, factor) == thousandths).then_some(number)
}

/// The least number with this many digits after its point whose value is not below the quantity, if
/// it has at most 17 digits.
fn least_number(thousandths: u128, places: u32, numerator: u128) -> Option<u128>
    requires some { 0 < thousandths }
    requires bound { thousandths ≤ greatest_quantity }
    requires places { places ≤ 17 }
    requires numerator { (0 < numerator) × (numerator ≤ 2 ^ 60) }
    ensures value { result ≡ few_digits (least_number thousandths places numerator) }
    ensures bound { IfSome result (λ number. number < 10 ^ 17) }
{
    let below = thousandths - 1;
    if below >= 1000 * numerator * 10u128.pow(17 - places) {
        return None;
    }
    let number = below * 10u128.pow(places) / (1000 * numerator) + 1;
    (number < 10u128.pow(17)).then_some(number)
}
