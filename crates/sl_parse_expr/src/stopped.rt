//! Why reading stopped.

ghost use Rattle.std.specs.Prelude.{◌≡◌};
ghost use Rattle.sl_parse_expr.specs.declared.stopped.Stopped.TheVariants.{Memory};

use std::alloc::AllocError;
use thiserror::Error;

/// Why reading stopped, at the token where the cursor stands.
#[derive(Clone, Copy, Debug, PartialEq, Eq, Error)]
pub enum Stopped {
    /// No memory was left.
    #[error("no memory was left")]
    Memory,
    /// No rule goes on with this token.
    #[error("no rule goes on with this token")]
    Unexpected,
    /// Here expressions or patterns nest too deep.
    #[error("expressions or patterns nest too deep")]
    TooDeep,
}

impl From<AllocError> for Stopped {
    ghost from_gives = { λ _ e. e ≡ Memory };

    fn from(_error: AllocError) -> Stopped {
        Stopped::Memory
    }
}
