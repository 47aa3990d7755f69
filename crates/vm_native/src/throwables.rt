//! Objects of `java/lang/Throwable` and `java/lang/Thread`: the fields of the first begin with its message, those of the
//! second with its target.

ghost use Rattle.std.specs.Prelude.{◌≡◌, ◌<◌, drop, length};
ghost use Rattle.vm_state.specs.Natives.{is_object_of, sets_of, holds_at, throwable_init, throwable_init_text, get_message, thread_init};
ghost use Rattle.vm_native.specs.Acts.{Acts};

use crate::results::give_one;
use crate::writing::write;
use cf_link::built_in::{THREAD, THROWABLE};
use cf_link::{Linked, conforms};
use vm_state::{Frame, Heap, HeapEffect, StuckKind, Value, field_at, pop_off};

fn is_object_of(k: &Linked, class: u32, v: Value) -> bool
    ensures { result ≡ is_object_of k.now class v }
{
    match v {
        Value::Ref { at: _, class: of } => conforms(k.classes.as_slice(), of, class),
        _ => false,
    }
}

/// Sets the field n of an object of this class to the value on top.
fn sets_of(
    k: &Linked,
    h: &mut Heap,
    f: &mut Frame,
    class: u32,
    n: u32,
    v: Value,
    o: Value,
) -> HeapEffect
    requires { f.old.pc < 65535 }
    ensures { Acts (sets_of k.now h.old f.old class n v o (drop 2 f.old.stack.values)) result h.old h.new f.old f.new }
{
    match o {
        Value::Ref { at, class: of } => {
            if conforms(k.classes.as_slice(), of, class) {
                write(h, f, at, n, v)
            } else {
                HeapEffect::Stuck(StuckKind::WrongKind)
            }
        }
        _ => HeapEffect::Stuck(StuckKind::WrongKind),
    }
}

/// `Throwable.<init>()V`
pub fn throwable_init(k: &Linked, h: &Heap, f: &mut Frame) -> HeapEffect
    requires { f.old.pc < 65535 }
    ensures { Acts (throwable_init k.now h.now f.old f.old.stack.values) result h.now h.now f.old f.new }
{
    match f.stack.top() {
        None => HeapEffect::Stuck(StuckKind::Stack),
        Some(v) => {
            if is_object_of(k, THROWABLE, v) {
                pop_off(f, 1);
                HeapEffect::Done
            } else {
                HeapEffect::Stuck(StuckKind::WrongKind)
            }
        }
    }
}

/// `Throwable.<init>(S)V`
pub fn throwable_init_text(k: &Linked, h: &mut Heap, f: &mut Frame) -> HeapEffect
    requires { f.old.pc < 65535 }
    ensures { Acts (throwable_init_text k.now h.old f.old f.old.stack.values) result h.old h.new f.old f.new }
{
    match f.stack.top_two() {
        None => HeapEffect::Stuck(StuckKind::Stack),
        Some((m, v)) => {
            if m.is_null() || m.is_text() {
                sets_of(k, h, f, THROWABLE, 0, m, v)
            } else {
                HeapEffect::Stuck(StuckKind::WrongKind)
            }
        }
    }
}

fn hold(h: &Heap, f: &mut Frame, v: Option<Value>) -> HeapEffect
    requires pc { f.old.pc < 65535 }
    requires some { 0 < length f.old.stack.values }
    ensures { Acts (holds_at h.now f.old (drop 1 f.old.stack.values) v) result h.now h.now f.old f.new }
{
    match v {
        None => HeapEffect::Stuck(StuckKind::WrongKind),
        Some(v) => give_one(h, f, v),
    }
}

/// `Throwable.getMessage()S`
pub fn get_message(k: &Linked, h: &Heap, f: &mut Frame) -> HeapEffect
    requires { f.old.pc < 65535 }
    ensures { Acts (get_message k.now h.now f.old f.old.stack.values) result h.now h.now f.old f.new }
{
    match f.stack.top() {
        None => HeapEffect::Stuck(StuckKind::Stack),
        Some(Value::Ref { at, class: of }) => {
            if conforms(k.classes.as_slice(), of, THROWABLE) {
                hold(h, f, field_at(h, at, 0))
            } else {
                HeapEffect::Stuck(StuckKind::WrongKind)
            }
        }
        Some(_) => HeapEffect::Stuck(StuckKind::WrongKind),
    }
}

/// `Thread.<init>(Ljava/lang/Runnable;)V`
pub fn thread_init(k: &Linked, h: &mut Heap, f: &mut Frame) -> HeapEffect
    requires { f.old.pc < 65535 }
    ensures { Acts (thread_init k.now h.old f.old f.old.stack.values) result h.old h.new f.old f.new }
{
    match f.stack.top_two() {
        None => HeapEffect::Stuck(StuckKind::Stack),
        Some((target, v)) => sets_of(k, h, f, THREAD, 0, target, v),
    }
}
