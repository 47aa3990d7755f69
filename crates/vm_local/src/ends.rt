//! Ends of a method (JVMS 6.5: ireturn, lreturn, areturn, return, athrow).

ghost use Rattle.std.specs.Prelude.{◌≡◌, ◌∷◌};
ghost use Rattle.std.specs.Option.{option_copied};
ghost use Rattle.vm_state.specs.Instructions.{Does};
ghost use Rattle.vm_state.specs.Local.{fits_method, give, leave, throw};

use cf_link::built_in::THROWABLE;
use cf_link::{Linked, LinkedMethod, ValueKind, conforms};
use vm_state::{Effect, Frame, StuckKind, Value, is_result, method_of};

// Whether a result, or none, is of the kind of the method's result.
#[inline(always)]
fn fits_method(m: Option<&LinkedMethod>, v: Option<Value>) -> bool
    ensures { result ≡ fits_method (option_copied m.entry) v }
{
    match m {
        None => false,
        Some(m) => is_result(m.result, v),
    }
}

/// Ends the method with the value on top.
#[inline(always)]
pub fn give(k: &Linked, f: &mut Frame, kind: ValueKind) -> Effect
    ensures { Does (give k.now kind f.old f.old.stack.values) result f.old f.new }
{
    match f.stack.top() {
        None => Effect::Stuck(StuckKind::Stack),
        Some(v) => {
            if v.is_kind(kind) && fits_method(method_of(k, f), Some(v)) {
                Effect::Return(Some(v))
            } else {
                Effect::Stuck(StuckKind::WrongKind)
            }
        }
    }
}

/// Ends the method with no value.
#[inline(always)]
pub fn leave(k: &Linked, f: &mut Frame) -> Effect
    ensures { Does (leave k.now f.old) result f.old f.new }
{
    if fits_method(method_of(k, f), None) {
        Effect::Return(None)
    } else {
        Effect::Stuck(StuckKind::WrongKind)
    }
}

/// Throws the exception on top.
pub fn throw(k: &Linked, f: &mut Frame) -> Effect
    ensures { Does (throw k.now f.old f.old.stack.values) result f.old f.new }
{
    match f.stack.top() {
        None => Effect::Stuck(StuckKind::Stack),
        Some(Value::Ref { at, class }) => {
            if conforms(k.classes.as_slice(), class, THROWABLE) {
                Effect::Throw(Value::Ref { at, class })
            } else {
                Effect::Stuck(StuckKind::WrongKind)
            }
        }
        Some(Value::Null) => Effect::AtHeap,
        Some(_) => Effect::Stuck(StuckKind::WrongKind),
    }
}
