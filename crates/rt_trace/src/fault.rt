//! Why bytes are no list of turns.

use std::alloc::{AllocError, AllocFailed};
use thiserror::Error;

/// Why bytes are the text of no list of turns.
#[derive(Clone, Copy, Debug, PartialEq, Eq, Error)]
pub enum TurnFault {
    /// The first line that isn't the line of a turn; lines are counted from 1.
    #[error("line {line} is no turn")]
    Line { line: u32 },
    /// No memory was left.
    #[error("no memory was left")]
    Memory,
}

impl From<AllocError> for TurnFault {
    ghost use Rattle.std.specs.Prelude.{◌≡◌};
    ghost use Rattle.rt_trace.specs.declared.fault.TurnFault.TheVariants.{Memory};

    ghost from_gives = { λ _ fault. fault ≡ Memory };

    fn from(_error: AllocError) -> TurnFault {
        TurnFault::Memory
    }
}

impl<T: Drop> From<AllocFailed<T>> for TurnFault {
    ghost use Rattle.std.specs.Prelude.{◌≡◌};
    ghost use Rattle.rt_trace.specs.declared.fault.TurnFault.TheVariants.{Memory};

    ghost from_gives = { λ _ fault. fault ≡ Memory };

    fn from(_error: AllocFailed<T>) -> TurnFault {
        TurnFault::Memory
    }
}
