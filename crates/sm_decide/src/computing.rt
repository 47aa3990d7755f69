//! The primitive operators.

ghost use Rattle.std.specs.Prelude.{◌≡◌, IfOk, option_to_list, pos};
ghost use Rattle.std.specs.Option.{option_copied};
ghost use Rattle.ty_prog.specs.declared.prim_op.PrimOp.TheVariants as operator;
ghost use Rattle.sm_rule.specs.Values.{truth, null_pointer, divided, int_computed, long_computed, long_shifted, bool_computed, joined, concatenated, values_computed, two_computed, one_computed, computed};
ghost use Rattle.sm_state.specs.declared.value.Value.TheVariants as value;

use crate::texts::{is_empty, join, length, plain, units};
use crate::values::{alike, same};
use sl_base::{Name, NoMemory};
use sl_num::{IntOp, int, int_div, int_rem, long, long_div, long_rem};
use sm_rule::{Act, Move};
use sm_state::Value;
use std::alloc::Global;
use ty_prog::PrimOp;

fn truth(b: bool) -> Move
    ensures { result ≡ truth b }
{
    Move::End(Value::Bool(b))
}

/// NullPointerException is thrown.
pub(crate) fn null_pointer() -> Move
    ensures { result ≡ null_pointer }
{
    Move::Fail {
        class: 6,
        message: Value::Null,
    }
}

// The move of a division by zero.
fn by_zero(alloc: Global) -> Result<Move, NoMemory>
    ensures { IfOk result (λ m. m ≡ divided (pos 0) value.Unit) }
{
    Ok(Move::Fail {
        class: 5,
        message: Value::Text(plain(alloc, "/ by zero")?),
    })
}

// A quotient of Ints.
fn int_divided(alloc: Global, a: i32, b: i32) -> Result<Move, NoMemory>
    ensures { IfOk result (λ m. m ≡ int_computed operator.Div a b) }
{
    match int_div(a, b) {
        Some(n) => Ok(Move::End(Value::Int(n))),
        None => by_zero(alloc),
    }
}

// A remainder of Ints.
fn int_left(alloc: Global, a: i32, b: i32) -> Result<Move, NoMemory>
    ensures { IfOk result (λ m. m ≡ int_computed operator.Rem a b) }
{
    match int_rem(a, b) {
        Some(n) => Ok(Move::End(Value::Int(n))),
        None => by_zero(alloc),
    }
}

fn int_computed(alloc: Global, op: PrimOp, a: i32, b: i32) -> Result<Move, NoMemory>
    ensures { IfOk result (λ m. m ≡ int_computed op a b) }
{
    match op {
        PrimOp::Add => Ok(Move::End(Value::Int(int(IntOp::Add, a, b)))),
        PrimOp::Sub => Ok(Move::End(Value::Int(int(IntOp::Sub, a, b)))),
        PrimOp::Mul => Ok(Move::End(Value::Int(int(IntOp::Mul, a, b)))),
        PrimOp::Div => int_divided(alloc, a, b),
        PrimOp::Rem => int_left(alloc, a, b),
        PrimOp::And => Ok(Move::End(Value::Int(int(IntOp::And, a, b)))),
        PrimOp::Or => Ok(Move::End(Value::Int(int(IntOp::Or, a, b)))),
        PrimOp::Xor => Ok(Move::End(Value::Int(int(IntOp::Xor, a, b)))),
        PrimOp::Shl => Ok(Move::End(Value::Int(int(IntOp::Shl, a, b)))),
        PrimOp::Shr => Ok(Move::End(Value::Int(int(IntOp::Shr, a, b)))),
        PrimOp::Ushr => Ok(Move::End(Value::Int(int(IntOp::Ushr, a, b)))),
        PrimOp::Less => Ok(truth(a < b)),
        PrimOp::AtMost => Ok(truth(a <= b)),
        PrimOp::Greater => Ok(truth(b < a)),
        PrimOp::AtLeast => Ok(truth(b <= a)),
        _ => Ok(Move::Stuck),
    }
}

// A quotient of Longs.
fn long_divided(alloc: Global, a: i64, b: i64) -> Result<Move, NoMemory>
    ensures { IfOk result (λ m. m ≡ long_computed operator.Div a b) }
{
    match long_div(a, b) {
        Some(n) => Ok(Move::End(Value::Long(n))),
        None => by_zero(alloc),
    }
}

// A remainder of Longs.
fn long_left(alloc: Global, a: i64, b: i64) -> Result<Move, NoMemory>
    ensures { IfOk result (λ m. m ≡ long_computed operator.Rem a b) }
{
    match long_rem(a, b) {
        Some(n) => Ok(Move::End(Value::Long(n))),
        None => by_zero(alloc),
    }
}

fn long_computed(alloc: Global, op: PrimOp, a: i64, b: i64) -> Result<Move, NoMemory>
    ensures { IfOk result (λ m. m ≡ long_computed op a b) }
{
    match op {
        PrimOp::Add => Ok(Move::End(Value::Long(long(IntOp::Add, a, b)))),
        PrimOp::Sub => Ok(Move::End(Value::Long(long(IntOp::Sub, a, b)))),
        PrimOp::Mul => Ok(Move::End(Value::Long(long(IntOp::Mul, a, b)))),
        PrimOp::Div => long_divided(alloc, a, b),
        PrimOp::Rem => long_left(alloc, a, b),
        PrimOp::And => Ok(Move::End(Value::Long(long(IntOp::And, a, b)))),
        PrimOp::Or => Ok(Move::End(Value::Long(long(IntOp::Or, a, b)))),
        PrimOp::Xor => Ok(Move::End(Value::Long(long(IntOp::Xor, a, b)))),
        PrimOp::Less => Ok(truth(a < b)),
        PrimOp::AtMost => Ok(truth(a <= b)),
        PrimOp::Greater => Ok(truth(b < a)),
        PrimOp::AtLeast => Ok(truth(b <= a)),
        _ => Ok(Move::Stuck),
    }
}

fn long_shifted(op: PrimOp, a: i64, b: i32) -> Move
    ensures { result ≡ long_shifted op a b }
{
    match op {
        PrimOp::Shl => Move::End(Value::Long(long(IntOp::Shl, a, b as i64))),
        PrimOp::Shr => Move::End(Value::Long(long(IntOp::Shr, a, b as i64))),
        PrimOp::Ushr => Move::End(Value::Long(long(IntOp::Ushr, a, b as i64))),
        _ => Move::Stuck,
    }
}

fn bool_computed(op: PrimOp, a: bool, b: bool) -> Move
    ensures { result ≡ bool_computed op a b }
{
    match op {
        PrimOp::And => truth(a && b),
        PrimOp::Or => truth(a || b),
        PrimOp::Xor => truth(!alike(a, b)),
        _ => Move::Stuck,
    }
}

// Two texts joined, of at most 1,000,000 UTF-16 units.
fn joined(alloc: Global, a: &Name, b: &Name) -> Result<Move, NoMemory>
    ensures { IfOk result (λ m. m ≡ joined a.now b.now) }
{
    let sum = units(a)?.checked_add(units(b)?);
    match sum {
        None => Err(NoMemory),
        Some(n) => {
            if n > 1_000_000 {
                Ok(Move::Fail {
                    class: 17,
                    message: Value::Null,
                })
            } else {
                Ok(Move::End(Value::Text(join(alloc, a, b)?)))
            }
        }
    }
}

// Two values joined as texts; null is none.
fn concatenated(alloc: Global, a: &Value, b: &Value) -> Result<Move, NoMemory>
    ensures { IfOk result (λ m. m ≡ concatenated a.now b.now) }
{
    match (a, b) {
        (Value::Text(a), Value::Text(b)) => joined(alloc, a, b),
        (Value::Null, _) => Ok(null_pointer()),
        (Value::Text(_), Value::Null) => Ok(null_pointer()),
        _ => Ok(Move::Stuck),
    }
}

// `equals` is called.
fn call_equals(alloc: Global, a: &Value, b: &Value) -> Result<Move, NoMemory>
    ensures { IfOk result (λ m. m ≡ two_computed operator.Equals a.now b.now) }
{
    Ok(Move::Do(Act::CallEquals {
        one: a.copy(alloc)?,
        other: b.copy(alloc)?,
    }))
}

// An operator on two values of the types that it takes.
fn values_computed(alloc: Global, op: PrimOp, a: &Value, b: &Value) -> Result<Move, NoMemory>
    ensures { IfOk result (λ m. m ≡ values_computed op a.now b.now) }
{
    match (a, b) {
        (Value::Int(a), Value::Int(b)) => int_computed(alloc, op, *a, *b),
        (Value::Long(a), Value::Long(b)) => long_computed(alloc, op, *a, *b),
        (Value::Long(a), Value::Int(b)) => Ok(long_shifted(op, *a, *b)),
        (Value::Bool(a), Value::Bool(b)) => Ok(bool_computed(op, *a, *b)),
        _ => Ok(Move::Stuck),
    }
}

// An operator on two operands.
fn two_computed(alloc: Global, op: PrimOp, a: &Value, b: &Value) -> Result<Move, NoMemory>
    ensures { IfOk result (λ m. m ≡ two_computed op a.now b.now) }
{
    match op {
        PrimOp::Same => Ok(truth(same(a, b))),
        PrimOp::Equals => call_equals(alloc, a, b),
        PrimOp::Concat => concatenated(alloc, a, b),
        _ => values_computed(alloc, op, a, b),
    }
}

// An operator on one operand.
fn one_computed(alloc: Global, op: PrimOp, a: &Value) -> Result<Move, NoMemory>
    ensures { IfOk result (λ m. m ≡ one_computed op a.now) }
{
    match (op, a) {
        (PrimOp::Not, Value::Bool(a)) => Ok(truth(!*a)),
        (PrimOp::Length, Value::Text(t)) => Ok(Move::End(Value::Int(length(t)?))),
        (PrimOp::Length, Value::Null) => Ok(null_pointer()),
        (PrimOp::IsEmpty, Value::Text(t)) => Ok(truth(is_empty(t))),
        (PrimOp::IsEmpty, Value::Null) => Ok(null_pointer()),
        (PrimOp::ToString, _) => Ok(Move::Do(Act::CallToString(a.copy(alloc)?))),
        (PrimOp::ClassName, _) => Ok(Move::Do(Act::NameClass(a.copy(alloc)?))),
        _ => Ok(Move::Stuck),
    }
}

/// An operator on its operands: the earlier one, if there is one, and the last.
pub(crate) fn compute(
    alloc: Global,
    op: PrimOp,
    earlier: Option<&Value>,
    last: &Value,
) -> Result<Move, NoMemory>
    ensures { IfOk result (λ m. m ≡ computed op last.now (option_to_list (option_copied earlier.entry))) }
{
    match earlier {
        Some(a) => two_computed(alloc, op, a, last),
        None => one_computed(alloc, op, last),
    }
}
