//! Whether operands fit.

ghost use Rattle.std.specs.Prelude.{◌≡◌};
ghost use Rattle.vm_state.specs.Instructions.{pushed};

use vm_state::{Effect, Frame, StuckKind, Value};

/// What the push of a value comes to.
pub fn push(f: &Frame, v: Value) -> Effect
    ensures { result ≡ (pushed f.now f.now.stack.values v).effect }
{
    if f.stack.fits(v.width()) {
        Effect::Done
    } else {
        Effect::Stuck(StuckKind::Stack)
    }
}
