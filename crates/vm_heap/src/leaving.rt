//! Exceptions that leave the initialiser of a class, or a thread's last frame (JVMS 5.5, 2.10).

ghost use Rattle.std.specs.Prelude.{◌≡◌, [], drop, None, Some, IfOk};
ghost use Rattle.std.specs.Option.{option_copied};
ghost use Rattle.vm_state.specs.HeapStep.{IsHeapStep, fails_initialiser, message_at, ends_thread, heap_step};

use crate::exceptions::make_exception;
use crate::needing::set_init;
use cf_link::built_in::{ERROR, EXCEPTION_IN_INITIALIZER_ERROR};
use cf_link::{Linked, conforms};
use sl_base::{Name, NoMemory};
use std::alloc::Global;
use ty_prog::Event;
use vm_native::{class_text, message_in};
use vm_state::{
    Heap, HeapMove, Init, StuckKind, Thread, Value, class_of, field_at, is_initialiser,
};

/// An exception leaves the initialiser of a class, which is bad from then on; what isn't an Error is replaced.
fn fail_initialiser(
    alloc: Global,
    k: &Linked,
    h: &mut Heap,
    t: &mut Thread,
    class: u32,
    e: Value,
) -> HeapMove
    ensures { IsHeapStep (fails_initialiser k.now h.old t.old class (drop 1 t.old.frames) e) result h.old h.new t.old t.new }
{
    if conforms(k.classes.as_slice(), class_of(e), ERROR) {
        set_init(h, class, Init::Bad);
        t.frames.take_off(1);
        t.thrown = Some(e);
        return HeapMove::Moved;
    }
    match make_exception(alloc, k, h, EXCEPTION_IN_INITIALIZER_ERROR) {
        Err(_) => HeapMove::Memory,
        Ok(made) => {
            set_init(h, class, Init::Bad);
            t.frames.take_off(1);
            t.thrown = Some(made);
            HeapMove::Moved
        }
    }
}

fn copied(alloc: Global, message: Option<&Name>) -> Result<Option<Name>, NoMemory>
    ensures { IfOk result (λ text. text ≡ option_copied message.entry) }
{
    match message {
        None => Ok(None),
        Some(message) => Ok(Some(message.copy(alloc)?)),
    }
}

/// The message of an exception, if it has one.
fn message_at(alloc: Global, h: &Heap, e: Value) -> Result<Option<Name>, NoMemory>
    ensures { IfOk result (λ message. message ≡ message_at h.now e) }
{
    match e {
        Value::Ref { at, class: _ } => copied(alloc, message_in(h, field_at(h, at, 0))),
        _ => Ok(None),
    }
}

/// Takes all frames off.
fn end(t: &mut Thread)
    ensures { t.new ≡ record t.old { frames = []; thrown = None } }
{
    let count = t.frames.len();
    t.frames.take_off(count);
    t.thrown = None;
}

/// An exception ends its thread, which is told.
fn end_thread(alloc: Global, k: &Linked, h: &mut Heap, t: &mut Thread, e: Value) -> HeapMove
    ensures { IsHeapStep (ends_thread k.now h.old t.old e) result h.old h.new t.old t.new }
{
    let Ok(class) = class_text(alloc, k, class_of(e)) else {
        return HeapMove::Memory;
    };
    let Ok(message) = message_at(alloc, h, e) else {
        return HeapMove::Memory;
    };
    let told = Event::Uncaught {
        thread: t.number,
        class,
        message,
    };
    if h.trace.push(told).is_err() {
        return HeapMove::Memory;
    }
    end(t);
    HeapMove::Moved
}

/// The step by which an exception leaves the innermost frame.
pub(crate) fn leave_frame(
    alloc: Global,
    k: &Linked,
    h: &mut Heap,
    t: &mut Thread,
    e: Value,
) -> HeapMove
    requires { t.old.thrown ≡ Some e }
    ensures { IsHeapStep (heap_step k.now h.old t.old) result h.old h.new t.old t.new }
{
    let Some(f) = t.frames.top() else {
        return HeapMove::Stuck(StuckKind::PcOut);
    };
    if is_initialiser(k, f) {
        let class = f.class;
        fail_initialiser(alloc, k, h, t, class, e)
    } else {
        end_thread(alloc, k, h, t, e)
    }
}
