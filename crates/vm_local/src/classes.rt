//! Constants, casts and tests of classes (JVMS 6.5: ldc, checkcast, instanceof).

ghost use Rattle.std.specs.Prelude.{◌≡◌, ◌<◌, ◌≤◌, ◌∷◌, drop, length};
ghost use Rattle.vm_state.specs.Instructions.{Does, next};
ghost use Rattle.vm_state.specs.Methods.{ref_at};
ghost use Rattle.vm_state.specs.Local.{constant, cast, class_cast, check_cast, is_evaluating, is_latch, is_instance, truth, class_tested, instance_of};

use cf_link::built_in::{EVALUATING, LATCH};
use cf_link::{Linked, LinkedRef, ValueKind, conforms};
use vm_state::{Effect, Frame, StuckKind, Value, class_of, push, ref_at, skip};

/// Pushes a constant of the pool.
#[inline(always)]
pub fn constant(f: &mut Frame, r: Option<LinkedRef>) -> Effect
    requires { f.old.pc < 65535 }
    ensures { Does (constant f.old r) result f.old f.new }
{
    match r {
        Some(LinkedRef::Int(n)) => push(f, Value::Int(n)),
        Some(LinkedRef::Long(n)) => push(f, Value::Long(n)),
        Some(LinkedRef::Text(at)) => push(f, Value::Text(at)),
        _ => Effect::Stuck(StuckKind::WrongKind),
    }
}

// Goes on with null, or an object that conforms; else an exception is made.
fn cast(k: &Linked, f: &mut Frame, class: u32, v: Value) -> Effect
    requires { f.old.pc < 65535 }
    ensures { Does (cast k.now f.old class v) result f.old f.new }
{
    if v.is_null() || conforms(k.classes.as_slice(), class_of(v), class) {
        skip(f)
    } else {
        Effect::AtHeap
    }
}

// Casts a value to what an index resolves to.
fn class_cast(k: &Linked, f: &mut Frame, v: Value, r: Option<LinkedRef>) -> Effect
    requires { f.old.pc < 65535 }
    ensures { Does (class_cast k.now f.old v r) result f.old f.new }
{
    match r {
        Some(LinkedRef::Class(class)) => {
            if v.is_kind(ValueKind::Reference) {
                cast(k, f, class, v)
            } else {
                Effect::Stuck(StuckKind::WrongKind)
            }
        }
        _ => Effect::Stuck(StuckKind::WrongKind),
    }
}

/// Whether the top operand may be taken for one of a class.
#[tactic(auto, unfolding(vm_state::specs::Local::check_cast))]
pub fn check_cast(k: &Linked, f: &mut Frame, a: i32) -> Effect
    requires { f.old.pc < 65535 }
    ensures { Does (check_cast k.now f.old (ref_at k.now f.old.class a) f.old.stack.values) result f.old f.new }
{
    match f.stack.top() {
        None => Effect::Stuck(StuckKind::Stack),
        Some(v) => {
            let r = ref_at(k, f.class, a);
            class_cast(k, f, v, r)
        }
    }
}

// Whether the value is an `Evaluating`.
fn is_evaluating(v: Value) -> bool
    ensures { result ≡ is_evaluating v }
{
    match v {
        Value::Evaluating(_) => true,
        _ => false,
    }
}

// Whether the value is a `Latch`.
fn is_latch(v: Value) -> bool
    ensures { result ≡ is_latch v }
{
    match v {
        Value::Latch { .. } => true,
        _ => false,
    }
}

/// Whether a value is an instance of a class.
fn is_instance(k: &Linked, v: Value, class: u32) -> bool
    ensures { result ≡ is_instance k.now v class }
{
    if class == EVALUATING {
        is_evaluating(v)
    } else if class == LATCH {
        is_latch(v)
    } else {
        !v.is_null() && conforms(k.classes.as_slice(), class_of(v), class)
    }
}

// A truth value as an Int.
#[inline(always)]
fn truth(b: bool) -> Value
    ensures { result ≡ truth b }
{
    Value::Int(if b { 1 } else { 0 })
}

/// Puts an Int in the place of the top operand, a reference.
fn replace(f: &mut Frame, v: Value, b: bool) -> Effect
    requires pc { f.old.pc < 65535 }
    requires top { f.old.stack.values ≡ v ∷ drop 1 f.old.stack.values }
    ensures { Does (next f.old (truth b ∷ drop 1 f.old.stack.values)) result f.old f.new }
{
    let _ = f.stack.pop();
    f.stack.push(truth(b));
    f.pc += 1;
    Effect::Done
}

// Tests a value for what an index resolves to.
fn class_tested(k: &Linked, f: &mut Frame, v: Value, r: Option<LinkedRef>) -> Effect
    requires pc { f.old.pc < 65535 }
    requires top { f.old.stack.values ≡ v ∷ drop 1 f.old.stack.values }
    ensures { Does (class_tested k.now f.old v (drop 1 f.old.stack.values) r) result f.old f.new }
{
    match r {
        Some(LinkedRef::Class(class)) => {
            if v.is_kind(ValueKind::Reference) {
                let b = is_instance(k, v, class);
                replace(f, v, b)
            } else {
                Effect::Stuck(StuckKind::WrongKind)
            }
        }
        _ => Effect::Stuck(StuckKind::WrongKind),
    }
}

/// Whether the top operand is an instance of a class.
#[tactic(auto, unfolding(vm_state::specs::Local::instance_of))]
pub fn instance_of(k: &Linked, f: &mut Frame, a: i32) -> Effect
    requires { f.old.pc < 65535 }
    ensures { Does (instance_of k.now f.old (ref_at k.now f.old.class a) f.old.stack.values) result f.old f.new }
{
    match f.stack.top() {
        None => Effect::Stuck(StuckKind::Stack),
        Some(v) => {
            let r = ref_at(k, f.class, a);
            class_tested(k, f, v, r)
        }
    }
}
