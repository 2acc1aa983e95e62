//! Why a tick line was rejected.

ghost use Rattle.std.specs.Prelude.{◌≡◌};
ghost use Rattle.tick_lines.specs.declared.fault.TickLineFault.TheVariants.{Usage, OutOfMemory};

use json_fields::FieldFault;
use std::alloc::AllocError;
use thiserror::Error;

/// What is wrong with a tick line by itself.
#[derive(Clone, Copy, Debug, PartialEq, Eq, Error)]
pub enum TickLineFault {
    /// A field that has to be there is missing, or one has a value of another kind or out of its
    /// range, a faulty quantity, or a signal that it may not name.
    #[error("a field of the tick is refused")]
    Usage,
    #[error("out of memory")]
    OutOfMemory,
}

impl From<AllocError> for TickLineFault {
    ghost from_gives = { λ _ e. e ≡ OutOfMemory };

    fn from(_e: AllocError) -> TickLineFault {
        TickLineFault::OutOfMemory
    }
}

impl From<FieldFault> for TickLineFault {
    ghost from_gives = { λ _ e. e ≡ Usage };

    fn from(_e: FieldFault) -> TickLineFault {
        TickLineFault::Usage
    }
}
