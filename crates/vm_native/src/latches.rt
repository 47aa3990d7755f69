//! Latches (`lazyrt/Cells`).

ghost use Rattle.std.specs.Prelude.{◌≡◌, ◌∷◌, ◌+◌, ◌<◌, ◌≤◌, drop, slice_get};
ghost use Rattle.vm_state.specs.Natives.{latch, opens, count_down, awaits, await, names_thread, owned_here};
ghost use Rattle.vm_native.specs.Acts.{Acts};

use crate::results::{give_one, truth};
use cf_link::built_in::{CLASS_CAST_EXCEPTION, NULL_POINTER_EXCEPTION};
use vm_state::{Frame, Heap, HeapEffect, StuckKind, Value, pop_off};

/// `latch(O)H`: without memory nothing changes.
pub fn latch(h: &mut Heap, f: &mut Frame) -> HeapEffect
    requires { f.old.pc < 65535 }
    ensures { Acts (latch h.old f.old f.old.stack.values) result h.old h.new f.old f.new }
{
    match f.stack.top() {
        None => HeapEffect::Stuck(StuckKind::Stack),
        Some(Value::Evaluating(owner)) => {
            let at = h.opened.len();
            if at >= 4294967295 {
                return HeapEffect::Memory;
            }
            if h.opened.push(false).is_err() {
                return HeapEffect::Memory;
            }
            let _ = f.stack.pop();
            f.stack.push(Value::Latch {
                at: at as u32,
                owner,
            });
            f.pc += 1;
            HeapEffect::Done
        }
        Some(_) => HeapEffect::Fail(CLASS_CAST_EXCEPTION),
    }
}

fn open(h: &mut Heap, f: &mut Frame, at: u32) -> HeapEffect
    requires { f.old.pc < 65535 }
    ensures { Acts (opens h.old f.old (drop 1 f.old.stack.values) at (slice_get h.old.opened at)) result h.old h.new f.old f.new }
{
    match h.opened.get(at as usize) {
        None => return HeapEffect::Stuck(StuckKind::WrongKind),
        Some(_) => {}
    }
    *h.opened.at_mut(at as usize) = true;
    pop_off(f, 1);
    HeapEffect::Done
}

/// `countDown(H)V`
pub fn count_down(h: &mut Heap, f: &mut Frame) -> HeapEffect
    requires { f.old.pc < 65535 }
    ensures { Acts (count_down h.old f.old f.old.stack.values) result h.old h.new f.old f.new }
{
    match f.stack.top() {
        None => HeapEffect::Stuck(StuckKind::Stack),
        Some(Value::Latch { at, owner: _ }) => open(h, f, at),
        Some(Value::Null) => HeapEffect::Fail(NULL_POINTER_EXCEPTION),
        Some(_) => HeapEffect::Stuck(StuckKind::WrongKind),
    }
}

fn pass(h: &Heap, f: &mut Frame, at: u32) -> HeapEffect
    requires { f.old.pc < 65535 }
    ensures { Acts (awaits h.now f.old (drop 1 f.old.stack.values) (slice_get h.now.opened at)) result h.now h.now f.old f.new }
{
    match h.opened.get(at as usize) {
        None => HeapEffect::Stuck(StuckKind::WrongKind),
        Some(is_open) => {
            if *is_open {
                pop_off(f, 1);
                HeapEffect::Done
            } else {
                HeapEffect::Waits
            }
        }
    }
}

/// `await(H)V`
pub fn await_latch(h: &Heap, f: &mut Frame) -> HeapEffect
    requires { f.old.pc < 65535 }
    ensures { Acts (await h.now f.old f.old.stack.values) result h.now h.now f.old f.new }
{
    match f.stack.top() {
        None => HeapEffect::Stuck(StuckKind::Stack),
        Some(Value::Latch { at, owner: _ }) => pass(h, f, at),
        Some(Value::Null) => HeapEffect::Fail(NULL_POINTER_EXCEPTION),
        Some(_) => HeapEffect::Stuck(StuckKind::WrongKind),
    }
}

fn names_thread(thread: u32, v: Value) -> bool
    ensures { result ≡ names_thread thread v }
{
    match v {
        Value::Evaluating(owner) => owner == thread,
        Value::Latch { at: _, owner } => owner == thread,
        _ => false,
    }
}

/// `ownedHere(O)Z`
pub fn owned_here(h: &Heap, f: &mut Frame, thread: u32) -> HeapEffect
    requires { f.old.pc < 65535 }
    ensures { Acts (owned_here h.now f.old thread f.old.stack.values) result h.now h.now f.old f.new }
{
    match f.stack.top() {
        None => HeapEffect::Stuck(StuckKind::Stack),
        Some(v) => give_one(h, f, truth(names_thread(thread, v))),
    }
}
