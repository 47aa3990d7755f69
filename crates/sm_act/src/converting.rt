//! Conversions and tests of values.

ghost use Rattle.std.specs.Prelude.{◌≡◌};
ghost use Rattle.std.specs.Option.{option_copied};
ghost use Rattle.sl_num.specs.Int.{signed32};
ghost use Rattle.sm_act.specs.Forms.{plain_converted};
ghost use Rattle.ty_prog.specs.declared.ty.Ty.TheVariants as ty;
ghost use Rattle.sm_rule.specs.Perform.{has, instance_of, is_instance, fits, fitting, converted, passes};

use crate::fields::{bad_cast, gives};
use sm_rule::Answer;
use sm_state::{Heap, Object, Value, default_of, linear_of};
use ty_prog::{Program, Tested, Ty};

// Whether a linearisation has a class.
fn has(class: u32, linear: &[u32]) -> bool
    ensures { result ≡ has class linear.now }
{
    match linear.split_first() {
        None => false,
        Some((c, rest)) => *c == class || has(class, rest),
    }
}

fn instance_of(p: &Program, class: u32, o: Option<&Object>) -> bool
    ensures { result ≡ instance_of p.now class (option_copied o.entry) }
{
    match o {
        Some(o) => has(class, linear_of(p.classes.as_slice(), o.class)),
        None => false,
    }
}

/// Whether the object with this number is of a class or of one below it.
pub fn is_instance(p: &Program, h: &Heap, class: u32, r: u32) -> bool
    ensures { result ≡ is_instance p.now h.now class r }
{
    instance_of(p, class, h.objects.get(r as usize))
}

// Whether a value that isn't null is of a type.
fn fits(p: &Program, h: &Heap, to: Ty, v: &Value) -> bool
    ensures { result ≡ fits p.now h.now to v.now }
{
    match (to, v) {
        (Ty::Any, _) => true,
        (Ty::AnyRef, _) => true,
        (Ty::Unit, Value::Unit) => true,
        (Ty::Boolean, Value::Bool(_)) => true,
        (Ty::Int, Value::Int(_)) => true,
        (Ty::Long, Value::Long(_)) => true,
        (Ty::Text, Value::Text(_)) => true,
        (Ty::Class(class), Value::Ref(r)) => is_instance(p, h, class, *r),
        _ => false,
    }
}

fn fitting(p: &Program, h: &Heap, to: Ty, v: Value) -> Answer
    ensures { result ≡ fitting p.now h.now to v }
{
    if fits(p, h, to, &v) {
        gives(v)
    } else {
        bad_cast()
    }
}

// The low 32 bits (JVMS 6.5, l2i).
fn low_bits(n: i64) -> i32
    ensures { result ≡ signed32 n }
{
    let low = n.rem_euclid(4294967296) as u32;
    low.cast_signed()
}

// A value converted to Int: of a Long the low 32 bits.
fn to_int(p: &Program, h: &Heap, v: Value) -> Answer
    ensures { result ≡ converted p.now h.now ty.Int v }
{
    match v {
        Value::Long(n) => gives(Value::Int(low_bits(n))),
        Value::Null => gives(Value::Int(0)),
        v => fitting(p, h, Ty::Int, v),
    }
}

// A value converted to Long.
fn to_long(p: &Program, h: &Heap, v: Value) -> Answer
    ensures { result ≡ converted p.now h.now ty.Long v }
{
    match v {
        Value::Int(n) => gives(Value::Long(n as i64)),
        Value::Null => gives(Value::Long(0)),
        v => fitting(p, h, Ty::Long, v),
    }
}

// To a type that is no Int and no Long.
fn to_plain(p: &Program, h: &Heap, to: Ty, v: Value) -> Answer
    ensures { result ≡ plain_converted p.now h.now to v }
{
    match v {
        Value::Null => gives(default_of(to)),
        v => fitting(p, h, to, v),
    }
}

/// A value widened, boxed, unboxed or narrowed.
#[tactic(auto, using(crate::proofs::Converted::plain_is))]
pub(crate) fn convert(p: &Program, h: &Heap, to: Ty, v: Value) -> Answer
    ensures { result ≡ converted p.now h.now to v }
{
    match to {
        Ty::Int => to_int(p, h, v),
        Ty::Long => to_long(p, h, v),
        _ => to_plain(p, h, to, v),
    }
}

/// Whether a value passes a test.
pub(crate) fn passes(p: &Program, h: &Heap, v: &Value, test: Tested) -> bool
    ensures { result ≡ passes p.now h.now v.now test }
{
    match test {
        Tested::Latch => matches!(v, Value::Latch { .. }),
        Tested::Evaluating => matches!(v, Value::Evaluating(_)),
        Tested::OfType(to) => match v {
            Value::Null => false,
            _ => fits(p, h, to, v),
        },
    }
}
