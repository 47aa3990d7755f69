//! One heap step of a thread.

ghost use Rattle.std.specs.Prelude.{◌≡◌, ◌<◌, length, None};
ghost use Rattle.vm_heap.specs.Deeds.{deed, next_deed, DoesDeed, initialised_top, settled_top, top_of, ComesTop};
ghost use Rattle.vm_native.specs.Acts.{Acts};
ghost use Rattle.vm_state.specs.Methods.{ref_at};
ghost use Rattle.vm_state.specs.HeapStep.{IsHeapStep, shares, heap_step};

use crate::calls::{invokes, invokes_static};
use crate::exceptions::fail;
use crate::fields::{get_field, put_field};
use crate::leaving::leave_frame;
use crate::needing::{gets_static, makes, puts_static};
use crate::settling::{call, end_initialiser, initialise};
use crate::texts::if_same_texts;
use cf_form::Instr;
use cf_link::Linked;
use cf_link::built_in::{ARITHMETIC_EXCEPTION, CLASS_CAST_EXCEPTION, NULL_POINTER_EXCEPTION};
use std::alloc::Global;
use vm_state::{
    Action, Frame, Heap, HeapAction, HeapEffect, HeapMove, StuckKind, Thread, action_of, instr_at,
    ref_at,
};

/// What an instruction does that always touches what threads share.
fn share(
    alloc: Global,
    k: &Linked,
    h: &mut Heap,
    f: &mut Frame,
    thread: u32,
    i: Instr,
    action: HeapAction,
) -> HeapEffect
    requires { f.old.pc < 65535 }
    ensures { Acts (shares k.now h.old f.old thread (ref_at k.now f.old.class i.a) action) result h.old h.new f.old f.new }
{
    let r = ref_at(k, f.class, i.a);
    match action {
        HeapAction::GetStatic => gets_static(alloc, k, h, f, thread, r),
        HeapAction::PutStatic => puts_static(alloc, k, h, f, thread, r),
        HeapAction::GetField => get_field(k, h, f, r),
        HeapAction::PutField => put_field(k, h, f, r),
        HeapAction::InvokeStatic => invokes_static(alloc, k, h, f, thread, r),
        HeapAction::New => makes(alloc, k, h, f, thread, r),
    }
}

/// What an instruction does to the heap and to its frame; None where it ends the initialiser of a class.
fn do_deed(
    alloc: Global,
    k: &Linked,
    h: &mut Heap,
    f: &mut Frame,
    thread: u32,
    i: Instr,
    action: Action,
) -> Option<HeapEffect>
    requires { f.old.pc < 65535 }
    ensures { DoesDeed (deed k.now h.old f.old thread i action) result h.old h.new f.old f.new }
{
    match action {
        Action::AtHeap(action) => Some(share(alloc, k, h, f, thread, i, action)),
        Action::Invoke(how) => {
            let r = ref_at(k, f.class, i.a);
            Some(invokes(alloc, k, h, f, thread, how, r))
        }
        Action::IfSame(wanted) => Some(if_same_texts(h, f, wanted, i.a)),
        Action::IntDivide(_) => Some(HeapEffect::Fail(ARITHMETIC_EXCEPTION)),
        Action::LongDivide(_) => Some(HeapEffect::Fail(ARITHMETIC_EXCEPTION)),
        Action::Throw => Some(HeapEffect::Fail(NULL_POINTER_EXCEPTION)),
        Action::CheckCast => Some(HeapEffect::Fail(CLASS_CAST_EXCEPTION)),
        Action::Give(_) => None,
        Action::Leave => None,
        _ => Some(HeapEffect::Stuck(StuckKind::PcOut)),
    }
}

/// What the next instruction of a frame does.
fn do_next(
    alloc: Global,
    k: &Linked,
    h: &mut Heap,
    f: &mut Frame,
    thread: u32,
) -> Option<HeapEffect>
    ensures { DoesDeed (next_deed k.now h.old f.old thread) result h.old h.new f.old f.new }
{
    match instr_at(k, f) {
        None => Some(HeapEffect::Stuck(StuckKind::PcOut)),
        Some(i) => match action_of(i.op) {
            None => Some(HeapEffect::Stuck(StuckKind::PcOut)),
            Some(action) => do_deed(alloc, k, h, f, thread, i, action),
        },
    }
}

/// What was done to the innermost frame: a step is made, the initialiser of a class ends, or this effect follows.
#[derive(Clone, Copy)]
pub enum Top {
    Moved,
    Memory,
    Ends,
    Rests(HeapEffect),
}

fn top_of(done: Option<HeapEffect>) -> Top
    ensures { result ≡ top_of done }
{
    match done {
        None => Top::Ends,
        Some(HeapEffect::Done) => Top::Moved,
        Some(HeapEffect::Memory) => Top::Memory,
        Some(effect) => Top::Rests(effect),
    }
}

/// Makes the next instruction of the innermost frame.
fn do_top(alloc: Global, k: &Linked, h: &mut Heap, t: &mut Thread) -> Top
    requires frames { 0 < length t.old.frames }
    requires thrown { t.old.thrown ≡ None }
    ensures { ComesTop k.now h.old h.new t.old t.new result }
{
    let thread = t.number;
    let done = do_next(alloc, k, h, t.frames.top_mut(), thread);
    top_of(done)
}

/// What an effect does to a thread.
fn settle(alloc: Global, k: &Linked, h: &mut Heap, t: &mut Thread, effect: HeapEffect) -> HeapMove
    requires { 0 < length t.old.frames }
    ensures { IsHeapStep (settled_top k.now h.old t.old effect) result h.old h.new t.old t.new }
{
    match effect {
        HeapEffect::Done => HeapMove::Moved,
        HeapEffect::Waits => HeapMove::Waits,
        HeapEffect::Stuck(kind) => HeapMove::Stuck(kind),
        HeapEffect::Fail(class) => fail(alloc, k, h, t, class),
        HeapEffect::Call { target, count } => call(alloc, k, h, t, target, count),
        HeapEffect::Initialise(target) => initialise(alloc, k, h, t, target),
        HeapEffect::Memory => HeapMove::Memory,
    }
}

/// The step of a thread that is this effect.
fn finish(alloc: Global, k: &Linked, h: &mut Heap, t: &mut Thread, effect: HeapEffect) -> HeapMove
    requires frames { 0 < length t.old.frames }
    requires rests { heap_step k.now h.old t.old ≡ settled_top k.now h.old t.old effect }
    ensures { IsHeapStep (heap_step k.now h.old t.old) result h.old h.new t.old t.new }
{
    settle(alloc, k, h, t, effect)
}

/// The step of a thread that ends the initialiser of a class.
fn end(k: &Linked, h: &mut Heap, t: &mut Thread) -> HeapMove
    requires { heap_step k.now h.old t.old ≡ initialised_top h.old t.old t.old.frames }
    ensures { IsHeapStep (heap_step k.now h.old t.old) result h.old h.new t.old t.new }
{
    let _ = k;
    end_initialiser(h, t)
}

/// The step of a thread that makes an instruction.
fn instruct(alloc: Global, k: &Linked, h: &mut Heap, t: &mut Thread) -> HeapMove
    requires frames { 0 < length t.old.frames }
    requires thrown { t.old.thrown ≡ None }
    ensures { IsHeapStep (heap_step k.now h.old t.old) result h.old h.new t.old t.new }
{
    match do_top(alloc, k, h, t) {
        Top::Moved => HeapMove::Moved,
        Top::Memory => HeapMove::Memory,
        Top::Ends => end(k, h, t),
        Top::Rests(effect) => finish(alloc, k, h, t, effect),
    }
}

/// Makes the next step of a thread, where it touches what threads share: one of which `local` tells that it does. Only
/// a step that is made changes anything.
pub fn heap_step(alloc: Global, k: &Linked, h: &mut Heap, t: &mut Thread) -> HeapMove
    ensures { IsHeapStep (heap_step k.now h.old t.old) result h.old h.new t.old t.new }
{
    if t.frames.len() == 0 {
        return HeapMove::Stuck(StuckKind::PcOut);
    }
    match t.thrown {
        Some(e) => leave_frame(alloc, k, h, t, e),
        None => instruct(alloc, k, h, t),
    }
}
