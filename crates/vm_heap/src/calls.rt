//! Calls of static methods, on null, and of built-in methods (JVMS 6.5: invokestatic, invokevirtual, invokespecial,
//! invokeinterface).

ghost use Rattle.std.specs.Prelude.{◌≡◌, ◌<◌, slice_get};
ghost use Rattle.std.specs.Option.{option_copied};
ghost use Rattle.cf_link.specs.Classes.{method_at};
ghost use Rattle.vm_native.specs.Acts.{Acts};
ghost use Rattle.vm_state.specs.Shared.{needing};
ghost use Rattle.vm_state.specs.HeapStep.{argument_fault, static_effect, calls_static, runs_static, names_static, invokes_static, runs_native, native_of, runs_selected, receives, invokes};

use crate::needing::{Need, with_class};
use cf_link::built_in::NULL_POINTER_EXCEPTION;
use cf_link::{Linked, LinkedMethod, LinkedRef, Native, ValueKind, is_static, method_at};
use std::alloc::Global;
use vm_native::natively;
use vm_state::{
    Frame, Heap, HeapEffect, Invocation, StuckKind, Target, are_arguments, class_of, selection,
};

/// Why the operands are no arguments of these kinds.
pub fn argument_fault(f: &Frame, kinds: &[ValueKind]) -> Option<StuckKind>
    ensures { result ≡ argument_fault f.now kinds.now }
{
    if kinds.len() <= f.stack.count() {
        if are_arguments(kinds, &f.stack) {
            None
        } else {
            Some(StuckKind::WrongKind)
        }
    } else {
        Some(StuckKind::Stack)
    }
}

/// What a call of a static method comes to.
pub fn static_effect(f: &Frame, class: u32, number: u32, kinds: &[ValueKind]) -> HeapEffect
    ensures { result ≡ static_effect f.now class number kinds.now }
{
    match argument_fault(f, kinds) {
        None => HeapEffect::Call {
            target: Target {
                class,
                method: number,
            },
            count: kinds.len(),
        },
        Some(kind) => HeapEffect::Stuck(kind),
    }
}

/// Calls a static method that isn't built in, once its class may be used.
fn call_static(
    alloc: Global,
    k: &Linked,
    h: &mut Heap,
    f: &mut Frame,
    thread: u32,
    class: u32,
    number: u32,
    kinds: &[ValueKind],
) -> HeapEffect
    requires { f.old.pc < 65535 }
    ensures { Acts (needing k.now h.old f.old thread class (λ g. calls_static g f.old class number kinds.now)) result h.old h.new f.old f.new }
{
    let effect = static_effect(f, class, number, kinds);
    with_class(alloc, k, h, f, thread, class, Need::Call(effect))
}

fn run_static(
    alloc: Global,
    k: &Linked,
    h: &mut Heap,
    f: &mut Frame,
    thread: u32,
    class: u32,
    number: u32,
    m: &LinkedMethod,
) -> HeapEffect
    requires { f.old.pc < 65535 }
    ensures { Acts (runs_static k.now h.old f.old thread class number m.now m.now.native) result h.old h.new f.old f.new }
{
    let kinds = m.parameters.as_slice();
    match m.native {
        Some(native) => match argument_fault(f, kinds) {
            None => natively(alloc, k, h, f, thread, native),
            Some(kind) => HeapEffect::Stuck(kind),
        },
        None => call_static(alloc, k, h, f, thread, class, number, kinds),
    }
}

fn name_static(
    alloc: Global,
    k: &Linked,
    h: &mut Heap,
    f: &mut Frame,
    thread: u32,
    class: u32,
    number: u32,
) -> HeapEffect
    requires { f.old.pc < 65535 }
    ensures { Acts (names_static k.now h.old f.old thread class number (method_at k.now.classes class number)) result h.old h.new f.old f.new }
{
    match method_at(k.classes.as_slice(), class, number) {
        None => HeapEffect::Stuck(StuckKind::NoMethod),
        Some(m) => {
            if is_static(m.access) {
                run_static(alloc, k, h, f, thread, class, number, m)
            } else {
                HeapEffect::Stuck(StuckKind::WrongKind)
            }
        }
    }
}

/// Calls a static method, once its class may be used; a built-in one is done at once.
pub fn invokes_static(
    alloc: Global,
    k: &Linked,
    h: &mut Heap,
    f: &mut Frame,
    thread: u32,
    r: Option<LinkedRef>,
) -> HeapEffect
    requires { f.old.pc < 65535 }
    ensures { Acts (invokes_static k.now h.old f.old thread r) result h.old h.new f.old f.new }
{
    match r {
        Some(LinkedRef::Method(class, number)) => {
            name_static(alloc, k, h, f, thread, class, number)
        }
        _ => HeapEffect::Stuck(StuckKind::WrongKind),
    }
}

/// The built-in method that a method is, if it is one.
pub fn native_of(m: Option<&LinkedMethod>) -> Option<Native>
    ensures { result ≡ native_of (option_copied m.entry) }
{
    match m {
        None => None,
        Some(m) => m.native,
    }
}

fn run_native(
    alloc: Global,
    k: &Linked,
    h: &mut Heap,
    f: &mut Frame,
    thread: u32,
    native: Option<Native>,
) -> HeapEffect
    requires { f.old.pc < 65535 }
    ensures { Acts (runs_native k.now h.old f.old thread native) result h.old h.new f.old f.new }
{
    match native {
        None => HeapEffect::Stuck(StuckKind::NoMethod),
        Some(native) => natively(alloc, k, h, f, thread, native),
    }
}

fn run_selected(
    alloc: Global,
    k: &Linked,
    h: &mut Heap,
    f: &mut Frame,
    thread: u32,
    found: Option<(u32, u32)>,
) -> HeapEffect
    requires { f.old.pc < 65535 }
    ensures { Acts (runs_selected k.now h.old f.old thread found) result h.old h.new f.old f.new }
{
    match found {
        None => HeapEffect::Stuck(StuckKind::NoMethod),
        Some(found) => {
            let native = native_of(method_at(k.classes.as_slice(), found.0, found.1));
            run_native(alloc, k, h, f, thread, native)
        }
    }
}

fn invoke_as(
    alloc: Global,
    k: &Linked,
    h: &mut Heap,
    f: &mut Frame,
    thread: u32,
    how: Invocation,
    of: u32,
    number: u32,
    count: usize,
) -> HeapEffect
    requires { f.old.pc < 65535 }
    ensures { Acts (receives k.now h.old f.old thread how of number (slice_get f.old.stack.values count)) result h.old h.new f.old f.new }
{
    match f.stack.get(count) {
        None => HeapEffect::Stuck(StuckKind::Stack),
        Some(v) => {
            if v.is_null() {
                HeapEffect::Fail(NULL_POINTER_EXCEPTION)
            } else {
                let found = selection(k, how, class_of(v), of, number);
                run_selected(alloc, k, h, f, thread, found)
            }
        }
    }
}

/// Calls a method on null, where an exception is made, or a built-in method on an object.
pub fn invokes(
    alloc: Global,
    k: &Linked,
    h: &mut Heap,
    f: &mut Frame,
    thread: u32,
    how: Invocation,
    r: Option<LinkedRef>,
) -> HeapEffect
    requires { f.old.pc < 65535 }
    ensures { Acts (invokes k.now h.old f.old thread how r) result h.old h.new f.old f.new }
{
    match r {
        Some(LinkedRef::Method(of, number)) => match method_at(k.classes.as_slice(), of, number) {
            None => HeapEffect::Stuck(StuckKind::NoMethod),
            Some(m) => {
                let count = m.parameters.len();
                invoke_as(alloc, k, h, f, thread, how, of, number, count)
            }
        },
        _ => HeapEffect::Stuck(StuckKind::WrongKind),
    }
}
