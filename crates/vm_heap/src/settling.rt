//! Methods that heap steps enter and leave (JVMS 5.5, 2.6).

ghost use Rattle.std.specs.Prelude.{◌≡◌, ◌<◌, drop, length};
ghost use Rattle.vm_heap.specs.Deeds.{initialised_top};
ghost use Rattle.vm_state.specs.declared.heap.Init.TheVariants as init;
ghost use Rattle.vm_state.specs.Heaps.{with_init};
ghost use Rattle.vm_state.specs.HeapStep.{IsHeapStep, enters_with, made_ready};
ghost use Rattle.vm_state.specs.Local.{called};
ghost use Rattle.vm_state.specs.Methods.{code_of};

use crate::needing::set_init;
use cf_link::Linked;
use std::alloc::Global;
use vm_state::{Heap, HeapMove, Init, LocalStep, StuckKind, Target, Thread, code_of, enter};

/// A class that is used without an initialiser is ready.
fn make_ready(h: &mut Heap, class: u32)
    ensures { h.new ≡ made_ready h.old class }
{
    if let Some(Init::NotYet) = h.inits.get(class as usize) {
        set_init(h, class, Init::Ready);
    }
}

/// Enters a static method.
pub(crate) fn call(
    alloc: Global,
    k: &Linked,
    h: &mut Heap,
    t: &mut Thread,
    target: Target,
    count: usize,
) -> HeapMove
    requires { 0 < length t.old.frames }
    ensures { IsHeapStep (enters_with h.old (made_ready h.old target.class) t.old (called t.old t.old.frames target count (code_of k.now target.class target.method))) result h.old h.new t.old t.new }
{
    match enter(
        alloc,
        t,
        target,
        count,
        code_of(k, target.class, target.method),
    ) {
        LocalStep::Stepped => {
            make_ready(h, target.class);
            HeapMove::Moved
        }
        LocalStep::Stuck(kind) => HeapMove::Stuck(kind),
        LocalStep::Memory => HeapMove::Memory,
        _ => HeapMove::Stuck(StuckKind::NoMethod),
    }
}

/// Enters the initialiser of a class.
pub(crate) fn initialise(
    alloc: Global,
    k: &Linked,
    h: &mut Heap,
    t: &mut Thread,
    target: Target,
) -> HeapMove
    requires { 0 < length t.old.frames }
    ensures { IsHeapStep (enters_with h.old (with_init h.old target.class (init.Running t.old.number)) t.old (called t.old t.old.frames target 0 (code_of k.now target.class target.method))) result h.old h.new t.old t.new }
{
    let thread = t.number;
    match enter(alloc, t, target, 0, code_of(k, target.class, target.method)) {
        LocalStep::Stepped => {
            set_init(h, target.class, Init::Running(thread));
            HeapMove::Moved
        }
        LocalStep::Stuck(kind) => HeapMove::Stuck(kind),
        LocalStep::Memory => HeapMove::Memory,
        _ => HeapMove::Stuck(StuckKind::NoMethod),
    }
}

/// Ends the initialiser of a class.
pub(crate) fn end_initialiser(h: &mut Heap, t: &mut Thread) -> HeapMove
    ensures { IsHeapStep (initialised_top h.old t.old t.old.frames) result h.old h.new t.old t.new }
{
    let Some(f) = t.frames.top() else {
        return HeapMove::Stuck(StuckKind::PcOut);
    };
    set_init(h, f.class, Init::Ready);
    t.frames.take_off(1);
    HeapMove::Moved
}
