//! Why a text is not a quantity, a percentage or a duration.

use thiserror::Error;

/// The first fault of a text that is not a quantity, a percentage or a duration.
#[derive(Clone, Copy, Debug, PartialEq, Eq, Hash, Error)]
pub enum QuantityFault {
    /// The text has no byte.
    #[error("the text is empty")]
    Empty,
    /// A digit is missing where one has to stand.
    #[error("a digit is missing")]
    BadDigit,
    /// What follows the number is no suffix or unit.
    #[error("the suffix is unknown")]
    BadSuffix,
    /// The number has too many digits, or is too large.
    #[error("the number is too large")]
    TooManyDigits,
    /// What follows the number begins as an exponent and is none from -18 to 18.
    #[error("the exponent is not from -18 to 18")]
    Exponent,
    /// The text begins with a minus sign.
    #[error("the number is negative")]
    Negative,
}
