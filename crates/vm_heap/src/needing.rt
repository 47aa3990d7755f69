//! Instructions that need a class (JVMS 5.5, 6.5: getstatic, putstatic, new, invokestatic).

ghost use Rattle.std.specs.Prelude.{◌≡◌, ◌<◌, Some, slice_get};
ghost use Rattle.vm_heap.specs.Needs.{served};
ghost use Rattle.vm_native.specs.Acts.{Acts};
ghost use Rattle.vm_state.specs.declared.heap.Init.TheVariants.{NotYet, Ready};
ghost use Rattle.vm_state.specs.Heaps.{with_init};
ghost use Rattle.vm_state.specs.Needing.{gets_static, puts_static, makes};
ghost use Rattle.vm_state.specs.Shared.{needing};

use crate::initialising::readiness;
use crate::objects::make;
use crate::statics::{get_static, put_static};
use cf_link::built_in::NO_CLASS_DEF_FOUND_ERROR;
use cf_link::{Linked, LinkedRef};
use std::alloc::Global;
use vm_state::{Frame, Heap, HeapEffect, Init, Readiness, StuckKind};

/// What an instruction needs its class for.
#[derive(Clone, Copy)]
pub enum Need {
    /// To push the static with this number.
    Get(u32),
    /// To store into it.
    Put(u32),
    /// To make an object.
    Make,
    /// To call a static method, which comes to this.
    Call(HeapEffect),
}

/// Sets how far a class is initialised.
#[tactic(auto, using(crate::proofs::Lists::set_past))]
pub(crate) fn set_init(h: &mut Heap, class: u32, init: Init)
    ensures { h.new ≡ with_init h.old class init }
{
    if (class as usize) < h.inits.len() {
        *h.inits.at_mut(class as usize) = init;
    }
}

/// What an instruction does once its class may be used.
#[tactic(auto, using(crate::proofs::Resting::rests_acts))]
fn serve(
    alloc: Global,
    k: &Linked,
    h: &mut Heap,
    f: &mut Frame,
    class: u32,
    need: Need,
) -> HeapEffect
    requires { f.old.pc < 65535 }
    ensures { Acts (served k.now f.old class need h.old) result h.old h.new f.old f.new }
{
    match need {
        Need::Get(n) => get_static(h, f, class, n),
        Need::Put(n) => put_static(k, h, f, class, n),
        Need::Make => make(alloc, k, h, f, class),
        Need::Call(effect) => effect,
    }
}

/// What it does where its class has no initialiser, and is ready from then on.
#[tactic(auto, using(crate::proofs::Lists::set_back))]
fn serve_first(
    alloc: Global,
    k: &Linked,
    h: &mut Heap,
    f: &mut Frame,
    class: u32,
    need: Need,
) -> HeapEffect
    requires pc { f.old.pc < 65535 }
    requires not_yet { slice_get h.old.inits class ≡ Some NotYet }
    ensures { Acts (served k.now f.old class need (with_init h.old class Ready)) result h.old h.new f.old f.new }
{
    set_init(h, class, Init::Ready);
    match serve(alloc, k, h, f, class, need) {
        HeapEffect::Done => HeapEffect::Done,
        other => {
            set_init(h, class, Init::NotYet);
            other
        }
    }
}

/// What an instruction does that needs a class.
#[tactic(auto, using(crate::proofs::Fresh::fresh_not_yet))]
pub(crate) fn with_class(
    alloc: Global,
    k: &Linked,
    h: &mut Heap,
    f: &mut Frame,
    thread: u32,
    class: u32,
    need: Need,
) -> HeapEffect
    requires { f.old.pc < 65535 }
    ensures { Acts (needing k.now h.old f.old thread class (served k.now f.old class need)) result h.old h.new f.old f.new }
{
    match readiness(k, h, thread, class) {
        Readiness::Usable => serve(alloc, k, h, f, class, need),
        Readiness::Fresh => serve_first(alloc, k, h, f, class, need),
        Readiness::Busy => HeapEffect::Waits,
        Readiness::Failed => HeapEffect::Fail(NO_CLASS_DEF_FOUND_ERROR),
        Readiness::Lacks(kind) => HeapEffect::Stuck(kind),
        Readiness::Begins(target) => HeapEffect::Initialise(target),
    }
}

/// Pushes a static, once its class may be used.
pub fn gets_static(
    alloc: Global,
    k: &Linked,
    h: &mut Heap,
    f: &mut Frame,
    thread: u32,
    r: Option<LinkedRef>,
) -> HeapEffect
    requires { f.old.pc < 65535 }
    ensures { Acts (gets_static k.now h.old f.old thread r) result h.old h.new f.old f.new }
{
    match r {
        Some(LinkedRef::Static(class, n)) => with_class(
            alloc,
            k,
            h,
            f,
            thread,
            class,
            Need::Get(n),
        ),
        _ => HeapEffect::Stuck(StuckKind::WrongKind),
    }
}

/// Stores the value on top into a static, once its class may be used.
pub fn puts_static(
    alloc: Global,
    k: &Linked,
    h: &mut Heap,
    f: &mut Frame,
    thread: u32,
    r: Option<LinkedRef>,
) -> HeapEffect
    requires { f.old.pc < 65535 }
    ensures { Acts (puts_static k.now h.old f.old thread r) result h.old h.new f.old f.new }
{
    match r {
        Some(LinkedRef::Static(class, n)) => with_class(
            alloc,
            k,
            h,
            f,
            thread,
            class,
            Need::Put(n),
        ),
        _ => HeapEffect::Stuck(StuckKind::WrongKind),
    }
}

/// Makes an object and pushes it, once its class may be used.
pub fn makes(
    alloc: Global,
    k: &Linked,
    h: &mut Heap,
    f: &mut Frame,
    thread: u32,
    r: Option<LinkedRef>,
) -> HeapEffect
    requires { f.old.pc < 65535 }
    ensures { Acts (makes k.now h.old f.old thread r) result h.old h.new f.old f.new }
{
    match r {
        Some(LinkedRef::Class(class)) => with_class(alloc, k, h, f, thread, class, Need::Make),
        _ => HeapEffect::Stuck(StuckKind::WrongKind),
    }
}
