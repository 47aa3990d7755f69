//! Loads, stores and `iinc`.

ghost use Rattle.std.specs.Prelude.{◌≡◌, ◌+◌, ◌<◌, ◌≤◌, length, slice_get};
ghost use Rattle.vm_state.specs.Values.{kind_width};
ghost use Rattle.vm_state.specs.Instructions.{Does, long_loaded, loaded, load, with_local, store, incremented};

use cf_link::ValueKind;
use sl_num::{IntOp, int};
use vm_state::{Effect, Frame, StuckKind, Value, kind_width, push};

/// Pushes a Long that takes these two local variables (JVMS 2.6.1).
#[inline(always)]
fn load_long(f: &mut Frame, n: u32) -> Effect
    requires { f.old.pc < 65535 }
    ensures { Does (long_loaded f.old (slice_get f.old.locals n) (slice_get f.old.locals (n + 1))) result f.old f.new }
{
    match (f.locals.get(n as usize), f.locals.get(n as usize + 1)) {
        (Some(v), Some(w)) => {
            let v = *v;
            if v.is_kind(ValueKind::Long) && w.is_null() {
                push(f, v)
            } else {
                Effect::Stuck(StuckKind::WrongKind)
            }
        }
        _ => Effect::Stuck(StuckKind::LocalOut),
    }
}

/// Pushes a value of category 1 (JVMS 2.11.1).
#[inline(always)]
fn load_one(f: &mut Frame, kind: ValueKind, n: u32) -> Effect
    requires { f.old.pc < 65535 }
    ensures { Does (loaded kind f.old (slice_get f.old.locals n)) result f.old f.new }
{
    match f.locals.get(n as usize) {
        None => Effect::Stuck(StuckKind::LocalOut),
        Some(v) => {
            let v = *v;
            if v.is_kind(kind) {
                push(f, v)
            } else {
                Effect::Stuck(StuckKind::WrongKind)
            }
        }
    }
}

/// Pushes a local.
#[inline(always)]
pub fn load(f: &mut Frame, kind: ValueKind, n: u32) -> Effect
    requires { f.old.pc < 65535 }
    ensures { Does (load kind f.old n) result f.old f.new }
{
    match kind {
        ValueKind::Long => load_long(f, n),
        _ => load_one(f, kind, n),
    }
}

/// Puts a value of this kind among the locals.
#[inline(always)]
fn put_local(f: &mut Frame, kind: ValueKind, n: u32, v: Value)
    requires { n + kind_width kind ≤ length f.old.locals }
    ensures { f.new ≡ record f.old { locals = with_local kind f.old.locals n v } }
{
    match kind {
        ValueKind::Long => {
            *f.locals.at_mut(n as usize) = v;
            *f.locals.at_mut(n as usize + 1) = Value::Null;
        }
        _ => *f.locals.at_mut(n as usize) = v,
    }
}

/// Takes the top operand into a local.
#[inline(always)]
pub fn store(f: &mut Frame, kind: ValueKind, n: u32) -> Effect
    requires { f.old.pc < 65535 }
    ensures { Does (store kind f.old n f.old.stack.values) result f.old f.new }
{
    match f.stack.top() {
        None => Effect::Stuck(StuckKind::Stack),
        Some(v) => {
            if n as usize + kind_width(kind) > f.locals.len() {
                return Effect::Stuck(StuckKind::LocalOut);
            }
            if v.is_kind(kind) {
                let _ = f.stack.pop();
                put_local(f, kind, n, v);
                f.pc += 1;
                Effect::Done
            } else {
                Effect::Stuck(StuckKind::WrongKind)
            }
        }
    }
}

/// Adds to an Int among the locals.
#[inline(always)]
pub fn increment(f: &mut Frame, n: u32, by: i32) -> Effect
    requires { f.old.pc < 65535 }
    ensures { Does (incremented f.old n by (slice_get f.old.locals n)) result f.old f.new }
{
    match f.locals.get(n as usize) {
        None => Effect::Stuck(StuckKind::LocalOut),
        Some(v) => match *v {
            Value::Int(x) => {
                *f.locals.at_mut(n as usize) = Value::Int(int(IntOp::Add, x, by));
                f.pc += 1;
                Effect::Done
            }
            _ => Effect::Stuck(StuckKind::WrongKind),
        },
    }
}
