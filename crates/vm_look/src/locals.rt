//! Loads, stores and `iinc`.

ghost use Rattle.std.specs.Prelude.{◌≡◌, ◌+◌, slice_get};
ghost use Rattle.vm_state.specs.Instructions.{long_loaded, loaded, load, store, incremented};

use crate::pushes::push;
use cf_link::ValueKind;
use vm_state::{Effect, Frame, StuckKind, Value, kind_width};

/// The load of a Long that takes these two local variables (JVMS 2.6.1).
fn load_long(f: &Frame, n: u32) -> Effect
    ensures { result ≡ (long_loaded f.now (slice_get f.now.locals n) (slice_get f.now.locals (n + 1))).effect }
{
    match (f.locals.get(n as usize), f.locals.get(n as usize + 1)) {
        (Some(v), Some(w)) => {
            if v.is_kind(ValueKind::Long) && w.is_null() {
                push(f, *v)
            } else {
                Effect::Stuck(StuckKind::WrongKind)
            }
        }
        _ => Effect::Stuck(StuckKind::LocalOut),
    }
}

/// The load of a value of category 1 (JVMS 2.11.1).
fn load_one(f: &Frame, kind: ValueKind, n: u32) -> Effect
    ensures { result ≡ (loaded kind f.now (slice_get f.now.locals n)).effect }
{
    match f.locals.get(n as usize) {
        None => Effect::Stuck(StuckKind::LocalOut),
        Some(v) => {
            if v.is_kind(kind) {
                push(f, *v)
            } else {
                Effect::Stuck(StuckKind::WrongKind)
            }
        }
    }
}

/// The load of a local.
pub fn load(f: &Frame, kind: ValueKind, n: u32) -> Effect
    ensures { result ≡ (load kind f.now n).effect }
{
    match kind {
        ValueKind::Long => load_long(f, n),
        _ => load_one(f, kind, n),
    }
}

/// The store of the top operand into a local.
pub fn store(f: &Frame, kind: ValueKind, n: u32) -> Effect
    ensures { result ≡ (store kind f.now n f.now.stack.values).effect }
{
    match f.stack.top() {
        None => Effect::Stuck(StuckKind::Stack),
        Some(v) => {
            if n as usize + kind_width(kind) > f.locals.len() {
                return Effect::Stuck(StuckKind::LocalOut);
            }
            if v.is_kind(kind) {
                Effect::Done
            } else {
                Effect::Stuck(StuckKind::WrongKind)
            }
        }
    }
}

/// An addition to an Int among the locals.
pub fn increment(f: &Frame, n: u32, by: i32) -> Effect
    ensures { result ≡ (incremented f.now n by (slice_get f.now.locals n)).effect }
{
    let _ = by;
    match f.locals.get(n as usize) {
        None => Effect::Stuck(StuckKind::LocalOut),
        Some(v) => match *v {
            Value::Int(_) => Effect::Done,
            _ => Effect::Stuck(StuckKind::WrongKind),
        },
    }
}
