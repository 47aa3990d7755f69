//! What becomes of a thread when its innermost frame is left.

ghost use Rattle.std.specs.Prelude.{◌≡◌, ◌<◌, length};
ghost use Rattle.vm_state.specs.Local.{IsLocal};
ghost use Rattle.vm_local.specs.Batches.{settled_top};

use crate::returning::end;
use cf_link::Linked;
use std::alloc::Global;
use vm_state::{Effect, LocalStep, Thread, code_of, enter};

/// What an effect of the innermost frame does to its thread.
pub fn settle(alloc: Global, k: &Linked, t: &mut Thread, effect: Effect) -> LocalStep
    requires { 0 < length t.old.frames }
    ensures { IsLocal (settled_top k.now t.old t.old.frames effect) result t.old t.new }
{
    match effect {
        Effect::Done => LocalStep::Stepped,
        Effect::AtHeap => LocalStep::AtHeap,
        Effect::Stuck(kind) => LocalStep::Stuck(kind),
        Effect::Call { target, count } => enter(
            alloc,
            t,
            target,
            count,
            code_of(k, target.class, target.method),
        ),
        Effect::Return(v) => end(k, t, v),
        Effect::Throw(e) => {
            t.thrown = Some(e);
            LocalStep::Stepped
        }
    }
}
