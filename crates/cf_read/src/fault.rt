//! Why a reader stops.

ghost use Rattle.std.specs.Prelude.{◌≡◌, length};
ghost use Rattle.cf_read.specs.declared.fault.Stop.TheVariants.{Memory};

use crate::file_fault::FileKind;
use std::alloc::{AllocError, AllocFailed};

/// What is wrong, and how many bytes are left from the first wrong one on.
#[derive(Clone, Copy, Debug)]
pub(crate) struct Fault {
    pub(crate) kind: FileKind,
    pub(crate) left: usize,
}

/// A fault was met, or no memory was left.
#[derive(Clone, Copy, Debug)]
pub(crate) enum Stop {
    Memory,
    Met(Fault),
}

impl From<AllocError> for Stop {
    ghost from_gives = { λ _ e. e ≡ Memory };

    fn from(_error: AllocError) -> Stop {
        Stop::Memory
    }
}

impl<T: Drop> From<AllocFailed<T>> for Stop {
    ghost from_gives = { λ _ e. e ≡ Memory };

    fn from(_error: AllocFailed<T>) -> Stop {
        Stop::Memory
    }
}

/// A fault, whose first wrong byte is the first of these.
pub(crate) fn refused(kind: FileKind, from: &[u8]) -> Stop
    ensures { result ≡ Stop.Met (record { kind = kind; left = length from.now }) }
{
    Stop::Met(Fault {
        kind,
        left: from.len(),
    })
}
