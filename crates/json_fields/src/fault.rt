//! Why a field holds no quantity.

ghost use Rattle.std.specs.Prelude.{◌≡◌};

use quantity::QuantityFault;
use thiserror::Error;

/// Why a field holds no quantity and no limit.
#[derive(Clone, Copy, Debug, PartialEq, Eq, Error)]
pub enum FieldFault {
    /// The value is neither a text nor a whole number of units.
    #[error("the value is neither a text nor a whole number of units")]
    WrongKind,
    /// The text, or the negative number, is no quantity.
    #[error("a quantity is faulty: {0}")]
    Faulty(QuantityFault),
}

impl From<QuantityFault> for FieldFault {
    ghost use Rattle.json_fields.specs.declared.fault.FieldFault.TheVariants.{Faulty};

    ghost from_gives = { λ fault e. e ≡ Faulty fault };

    fn from(fault: QuantityFault) -> FieldFault {
        FieldFault::Faulty(fault)
    }
}
