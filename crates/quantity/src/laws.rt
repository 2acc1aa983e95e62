//! What is true of each text that is read, and of each percentage of a capacity.
//!
//! Each function here is a law: its contract is what it is for, and its body is empty.

ghost use Rattle.std.specs.Prelude.{ℕ, List};
ghost use Rattle.quantity.specs.declared.fault.QuantityFault.{QuantityFault};
ghost use Rattle.quantity.specs.state.Laws as laws;

/// A text has at most one value as a quantity.
pub fn quantity_text_has_one_value()
    ensures { (text : List ℕ) (m n : ℕ) → laws.QuantityTextHasOneValue text m n }
{}

/// A text has at most one value as a percentage.
pub fn percent_text_has_one_value()
    ensures { (text : List ℕ) (m n : ℕ) → laws.PercentTextHasOneValue text m n }
{}

/// A text has at most one value as a duration.
pub fn duration_text_has_one_value()
    ensures { (text : List ℕ) (m n : ℕ) → laws.DurationTextHasOneValue text m n }
{}

/// A quantity and the same text after a plus have one value.
pub fn leading_plus_changes_nothing()
    ensures { (text : List ℕ) (n : ℕ) → laws.LeadingPlusChangesNothing text n }
{}

/// A quantity does not fall where a digit before its point grows.
pub fn larger_digit_gives_no_less()
    ensures { (front back : List ℕ) (low high m n : ℕ) → laws.LargerDigitGivesNoLess front back low high m n }
{}

/// A percentage of a capacity is at most the capacity.
pub fn shares_are_within_capacity()
    ensures { (hundredths capacity : ℕ) → laws.SharesAreWithinCapacity hundredths capacity }
{}

/// A percentage of a capacity does not fall where the percentage or the capacity grows.
pub fn shares_grow()
    ensures { (few many low high : ℕ) → laws.SharesGrow few many low high }
{}

/// What is printed of a quantity that some text writes is a text of that quantity.
pub fn written_quantities_read_back()
    ensures { (text : List ℕ) (thousandths : ℕ) → laws.WrittenQuantitiesReadBack text thousandths }
{}

/// What is printed of a quantity is a text of that quantity, if its units or its thousandths have
/// at most 17 digits.
pub fn printed_quantities_read_back()
    ensures { (thousandths : ℕ) → laws.PrintedQuantitiesReadBack thousandths }
{}

/// The number that a text begins with is its longest run of digits with at most one point.
pub fn number_is_longest_run()
    ensures { (text : List ℕ) → laws.NumberIsLongestRun text }
{}

/// What is printed of a percentage is a text of that percentage.
pub fn printed_percentages_read_back()
    ensures { (hundredths : ℕ) → laws.PrintedPercentagesReadBack hundredths }
{}

/// A text has at most one first fault as a quantity.
pub fn quantity_text_has_one_fault()
    ensures { (text : List ℕ) (one other : QuantityFault) → laws.QuantityTextHasOneFault text one other }
{}
