//! Exceptions: handlers, and frames that are left (JVMS 2.10).

ghost use Rattle.std.specs.Prelude.{◌≡◌, ◌<◌, length, nat_le, if◌then◌else◌, Some};
ghost use Rattle.vm_state.specs.Values.{width};
ghost use Rattle.vm_state.specs.Methods.{code_of};
ghost use Rattle.vm_state.specs.Local.{IsLocal, takes, covers, handler, handlers_of, caught, local_step};

use cf_form::Handler;
use cf_link::{Linked, LinkedRef, conforms};
use vm_state::{
    Frame, LocalStep, StuckKind, Thread, Value, class_of, code_of, is_initialiser, ref_at,
};

// Whether a handler with this class takes an exception.
fn takes(k: &Linked, e: Value, r: Option<LinkedRef>) -> bool
    ensures { result ≡ takes k.now e r }
{
    match r {
        Some(LinkedRef::Class(class)) => conforms(k.classes.as_slice(), class_of(e), class),
        _ => false,
    }
}

// Whether a handler's range holds the instruction, and its class fits.
fn covers(k: &Linked, f: &Frame, e: Value, h: Handler) -> bool
    ensures { result ≡ covers k.now f.now e h }
{
    h.from <= f.pc
        && f.pc < h.to
        && (h.class == 0 || takes(k, e, ref_at(k, f.class, h.class as i32)))
}

/// Where the first handler that takes an exception leads.
fn handler(k: &Linked, f: &Frame, e: Value, handlers: &[Handler]) -> Option<u32>
    ensures { result ≡ handler k.now f.now e handlers.now }
{
    for h in handlers {
        if covers(k, f, e, *h) {
            return Some(h.target);
        }
    }
    None
}

// The target of the first handler that covers the instruction where a frame stands.
fn handler_at(k: &Linked, f: &Frame, e: Value) -> Option<u32>
    ensures { result ≡ handler k.now f.now e (handlers_of (code_of k.now f.now.class f.now.method)) }
{
    match code_of(k, f.class, f.method) {
        None => None,
        Some(code) => handler(k, f, e, code.handlers.as_slice()),
    }
}

// Goes on at a handler, with the exception alone on the operand stack, where there is room.
fn catch(f: &mut Frame, e: Value, target: u32) -> bool
    ensures fits { result ≡ nat_le (width e) f.old.stack.room }
    ensures frame { f.new ≡ (if nat_le (width e) f.old.stack.room then caught f.old e target else f.old) }
{
    if f.stack.only(e) {
        f.pc = target;
        true
    } else {
        false
    }
}

/// The step of a thread that looks for a handler of its exception.
pub fn unwind(k: &Linked, t: &mut Thread, e: Value) -> LocalStep
    requires some { 0 < length t.old.frames }
    requires thrown { t.old.thrown ≡ Some e }
    ensures { IsLocal (local_step k.now t.old) result t.old t.new }
{
    let Some(f) = t.frames.top() else {
        return LocalStep::Memory;
    };
    match handler_at(k, f, e) {
        Some(target) => {
            if catch(t.frames.top_mut(), e, target) {
                t.thrown = None;
                LocalStep::Stepped
            } else {
                LocalStep::Stuck(StuckKind::Stack)
            }
        }
        None => {
            if t.frames.len() == 1 || is_initialiser(k, f) {
                return LocalStep::AtHeap;
            }
            t.frames.take_off(1);
            LocalStep::Stepped
        }
    }
}
