//! Quantities, percentages, durations, limits, names and steps, each with its answer.

use manifest::is_name;
use quantity::{Limit, Percent, Quantity, QuantityFault, seconds_of};
use round_steps::{read_steps, steps_fault_line, steps_status_of};
use std::alloc::{AllocError, Global};
use std::fmt::Display;

/// The number that was read, or the fault.
fn answer(alloc: Global, read: Result<u128, QuantityFault>) -> Result<String, AllocError> {
    match read {
        Ok(number) => number.to_string(alloc),
        Err(fault) => format!(in alloc; "{fault:?}"),
    }
}

/// What is printed of what was read, or of the fault.
fn printed<T: Display + Drop>(
    alloc: Global,
    read: Result<T, QuantityFault>,
) -> Result<String, AllocError> {
    match read {
        Ok(value) => value.to_string(alloc),
        Err(fault) => fault.to_string(alloc),
    }
}

/// The thousandths of a quantity.
pub(crate) fn quantity(alloc: Global, text: &[u8]) -> Result<String, AllocError> {
    answer(
        alloc,
        Quantity::parse(text).map(|quantity| quantity.milli()),
    )
}

/// A quantity as it is printed.
pub(crate) fn printed_quantity(alloc: Global, text: &[u8]) -> Result<String, AllocError> {
    printed(alloc, Quantity::parse(text))
}

/// The hundredths of a percentage.
pub(crate) fn percentage(alloc: Global, text: &[u8]) -> Result<String, AllocError> {
    let read = Percent::parse(text);
    answer(alloc, read.map(|percent| u128::from(percent.hundredths())))
}

/// A percentage as it is printed.
pub(crate) fn printed_percentage(alloc: Global, text: &[u8]) -> Result<String, AllocError> {
    printed(alloc, Percent::parse(text))
}

/// The seconds of a duration.
pub(crate) fn duration(alloc: Global, text: &[u8]) -> Result<String, AllocError> {
    answer(alloc, seconds_of(text).map(u128::from))
}

/// A quantity in thousandths or a percentage in hundredths.
pub(crate) fn limit(alloc: Global, text: &[u8]) -> Result<String, AllocError> {
    match Limit::parse(text) {
        Ok(limit) => format!(in alloc; "{limit:?}"),
        Err(fault) => answer(alloc, Err(fault)),
    }
}

/// Whether the text is the name of an object.
pub(crate) fn name(alloc: Global, text: &[u8]) -> Result<String, AllocError> {
    is_name(text).to_string(alloc)
}

/// The steps of a steps file, in which `|` stands for the end of a line, or the status and the line of
/// the refusal.
pub(crate) fn steps(alloc: Global, text: &str) -> Result<String, AllocError> {
    let lines: Vec<u8> = text
        .bytes()
        .map(|byte| if byte == b'|' { b'\n' } else { byte })
        .collect(alloc)?;
    match read_steps(alloc, &lines) {
        Ok(steps) => format!(in alloc; "{:?}", steps.as_slice()),
        Err(fault) => {
            let (status, line) = (steps_status_of(&fault), steps_fault_line(alloc, &fault)?);
            format!(in alloc; "status {status}: {line}")
        }
    }
}
