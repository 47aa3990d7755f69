//! Ends of a method (JVMS 6.5: ireturn, lreturn, areturn, return, athrow).

ghost use Rattle.std.specs.Prelude.{◌≡◌};
ghost use Rattle.std.specs.Option.{option_copied};
ghost use Rattle.vm_state.specs.Local.{fits_method, give, leave, throw};

use cf_link::built_in::THROWABLE;
use cf_link::{Linked, LinkedMethod, ValueKind, conforms};
use vm_state::{Effect, Frame, StuckKind, Value, is_result, method_of};

/// Whether a result, or none, is of the kind of the method's result.
fn fits_method(m: Option<&LinkedMethod>, v: Option<Value>) -> bool
    ensures { result ≡ fits_method (option_copied m.entry) v }
{
    match m {
        None => false,
        Some(m) => is_result(m.result, v),
    }
}

/// The end of a method with the value on top.
pub fn give(k: &Linked, f: &Frame, kind: ValueKind) -> Effect
    ensures { result ≡ (give k.now kind f.now f.now.stack.values).effect }
{
    match f.stack.top() {
        None => Effect::Stuck(StuckKind::Stack),
        Some(v) => {
            if v.is_kind(kind) && fits_method(method_of(k, f), Some(v)) {
                Effect::Return(Some(v))
            } else {
                Effect::Stuck(StuckKind::WrongKind)
            }
        }
    }
}

/// The end of a method with no value.
pub fn leave(k: &Linked, f: &Frame) -> Effect
    ensures { result ≡ (leave k.now f.now).effect }
{
    if fits_method(method_of(k, f), None) {
        Effect::Return(None)
    } else {
        Effect::Stuck(StuckKind::WrongKind)
    }
}

/// A throw of the exception on top.
pub fn throw(k: &Linked, f: &Frame) -> Effect
    ensures { result ≡ (throw k.now f.now f.now.stack.values).effect }
{
    match f.stack.top() {
        None => Effect::Stuck(StuckKind::Stack),
        Some(Value::Ref { at, class }) => {
            if conforms(k.classes.as_slice(), class, THROWABLE) {
                Effect::Throw(Value::Ref { at, class })
            } else {
                Effect::Stuck(StuckKind::WrongKind)
            }
        }
        Some(Value::Null) => Effect::AtHeap,
        Some(_) => Effect::Stuck(StuckKind::WrongKind),
    }
}
