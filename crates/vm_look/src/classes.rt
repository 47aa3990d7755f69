//! Constants, casts and tests of classes (JVMS 6.5: ldc, checkcast, instanceof).

ghost use Rattle.std.specs.Prelude.{◌≡◌, drop};
ghost use Rattle.vm_state.specs.Methods.{ref_at};
ghost use Rattle.vm_state.specs.Local.{constant, cast, class_cast, check_cast, class_tested, instance_of};

use crate::pushes::push;
use cf_link::{Linked, LinkedRef, ValueKind, conforms};
use vm_state::{Effect, Frame, StuckKind, Value, class_of, ref_at};

/// The push of a constant of the pool.
pub fn constant(f: &Frame, r: Option<LinkedRef>) -> Effect
    ensures { result ≡ (constant f.now r).effect }
{
    match r {
        Some(LinkedRef::Int(n)) => push(f, Value::Int(n)),
        Some(LinkedRef::Long(n)) => push(f, Value::Long(n)),
        Some(LinkedRef::Text(at)) => push(f, Value::Text(at)),
        _ => Effect::Stuck(StuckKind::WrongKind),
    }
}

/// A cast of null, or of an object that conforms; else an exception is made.
fn cast(k: &Linked, f: &Frame, class: u32, v: Value) -> Effect
    ensures { result ≡ (cast k.now f.now class v).effect }
{
    let _ = f;
    if v.is_null() || conforms(k.classes.as_slice(), class_of(v), class) {
        Effect::Done
    } else {
        Effect::AtHeap
    }
}

/// A cast of a value to what an index resolves to.
fn class_cast(k: &Linked, f: &Frame, v: Value, r: Option<LinkedRef>) -> Effect
    ensures { result ≡ (class_cast k.now f.now v r).effect }
{
    match r {
        Some(LinkedRef::Class(class)) => {
            if v.is_kind(ValueKind::Reference) {
                cast(k, f, class, v)
            } else {
                Effect::Stuck(StuckKind::WrongKind)
            }
        }
        _ => Effect::Stuck(StuckKind::WrongKind),
    }
}

/// A cast of the top operand.
#[tactic(auto, unfolding(vm_state::specs::Local::check_cast))]
pub fn check_cast(k: &Linked, f: &Frame, a: i32) -> Effect
    ensures { result ≡ (check_cast k.now f.now (ref_at k.now f.now.class a) f.now.stack.values).effect }
{
    match f.stack.top() {
        None => Effect::Stuck(StuckKind::Stack),
        Some(v) => class_cast(k, f, v, ref_at(k, f.class, a)),
    }
}

/// A test of a value for what an index resolves to.
fn class_tested(k: &Linked, f: &Frame, v: Value, r: Option<LinkedRef>) -> Effect
    ensures { result ≡ (class_tested k.now f.now v (drop 1 f.now.stack.values) r).effect }
{
    let _ = k;
    let _ = f;
    match r {
        Some(LinkedRef::Class(_)) => {
            if v.is_kind(ValueKind::Reference) {
                Effect::Done
            } else {
                Effect::Stuck(StuckKind::WrongKind)
            }
        }
        _ => Effect::Stuck(StuckKind::WrongKind),
    }
}

/// A test of the top operand.
#[tactic(auto, unfolding(vm_state::specs::Local::instance_of))]
pub fn instance_of(k: &Linked, f: &Frame, a: i32) -> Effect
    ensures { result ≡ (instance_of k.now f.now (ref_at k.now f.now.class a) f.now.stack.values).effect }
{
    match f.stack.top() {
        None => Effect::Stuck(StuckKind::Stack),
        Some(v) => class_tested(k, f, v, ref_at(k, f.class, a)),
    }
}
