//! Why a pass stops.

ghost use Rattle.std.specs.Prelude.{◌≡◌};
ghost use Rattle.ty_member.specs.declared.stopped.Stopped.TheVariants.{Broken, Memory};

use sl_ast::{TypeFault, TypeKind};
use sl_base::NoMemory;
use sl_text::Span;
use std::alloc::{AllocError, AllocFailed};

/// Want of memory, or a rule that is broken, and where.
#[derive(Clone, Copy, Debug, PartialEq, Eq)]
pub enum Stopped {
    Memory,
    Broken(TypeFault),
}

impl From<AllocError> for Stopped {
    ghost from_gives = { λ _ e. e ≡ Memory };

    fn from(_error: AllocError) -> Stopped {
        Stopped::Memory
    }
}

impl From<NoMemory> for Stopped {
    ghost from_gives = { λ _ e. e ≡ Memory };

    fn from(_error: NoMemory) -> Stopped {
        Stopped::Memory
    }
}

impl<T: Drop> From<AllocFailed<T>> for Stopped {
    ghost from_gives = { λ _ e. e ≡ Memory };

    fn from(_error: AllocFailed<T>) -> Stopped {
        Stopped::Memory
    }
}

/// The rule of this kind is broken here.
pub(crate) fn broken(kind: TypeKind, span: Span) -> Stopped
    ensures { result ≡ Broken (record { kind = kind; span = span }) }
{
    Stopped::Broken(TypeFault { kind, span })
}
