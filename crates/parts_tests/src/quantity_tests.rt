//! Quantities and percentages that are made of numbers.

use quantity::{Percent, Quantity};
use std::test::Fail;

/// The greatest quantity, in thousandths.
const GREATEST: u128 = 9_223_372_036_854_775_807_000;

#[test]
fn shares_of_a_capacity_are_rounded_down(rt: HostRuntime) {
    for (hundredths, capacity, share) in [
        (1000, 107_374_182_400_000, 10_737_418_240_000),
        (1, 19_999, 1),
        (10_000, GREATEST, GREATEST),
        (0, GREATEST, 0),
    ] {
        let percent = Percent::from_hundredths(hundredths);
        assert_eq!(rt; percent.of(capacity), share, "{hundredths} of {capacity}");
    }
}

#[test]
fn whole_units_become_quantities(rt: HostRuntime) -> Result<(), Fail> {
    assert_eq!(rt; Quantity::from_units(3).milli(), 3000);
    assert_eq!(rt; Quantity::from_units(u64::MAX).milli(), GREATEST);
    // no text writes this many digits, and it is printed in units
    let many = Quantity::from_units(123_456_789_012_345_678);
    let printed = format!(in rt.alloc(); "{many}")?;
    assert_eq!(rt; printed.as_str(), "123456789012345678");
    Ok(())
}
