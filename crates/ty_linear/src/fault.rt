//! Why there are no linearisations.

use std::alloc::AllocError;
use thiserror::Error;

/// Why there are no linearisations (SLS 5.1.2).
#[derive(Clone, Copy, Debug, PartialEq, Eq, Error)]
pub enum LinearFault {
    /// Some class is its own ancestor; this is the least one.
    #[error("class {class} is its own ancestor")]
    Cyclic { class: u32 },
    /// No memory was left.
    #[error("no memory was left")]
    Memory,
}

impl From<AllocError> for LinearFault {
    ghost use Rattle.std.specs.Prelude.{◌≡◌};
    ghost use Rattle.ty_linear.specs.declared.fault.LinearFault.TheVariants.{Memory};

    ghost from_gives = { λ _ fault. fault ≡ Memory };

    fn from(_error: AllocError) -> LinearFault {
        LinearFault::Memory
    }
}
