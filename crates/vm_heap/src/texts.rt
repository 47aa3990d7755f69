//! Texts compared (JVMS 6.5: if_acmpeq, if_acmpne).

ghost use Rattle.std.specs.Prelude.{◌≡◌, ◌<◌};
ghost use Rattle.vm_native.specs.Acts.{Acts};
ghost use Rattle.vm_state.specs.Shared.{if_same_texts};

use vm_state::{Effect, Frame, Heap, HeapEffect, StuckKind, branch, same_texts};

/// Goes on at the target where the two texts on top are the same, or where they aren't.
pub fn if_same_texts(h: &Heap, f: &mut Frame, wanted: bool, a: i32) -> HeapEffect
    requires { f.old.pc < 65535 }
    ensures { Acts (if_same_texts h.now f.old wanted a f.old.stack.values) result h.now h.now f.old f.new }
{
    match f.stack.top_two() {
        None => HeapEffect::Stuck(StuckKind::Stack),
        Some((w, v)) => {
            let same = same_texts(h, v, w);
            match branch(f, 2, a, if wanted { same } else { !same }) {
                Effect::Done => HeapEffect::Done,
                Effect::Stuck(kind) => HeapEffect::Stuck(kind),
                _ => HeapEffect::Stuck(StuckKind::WrongKind),
            }
        }
    }
}
