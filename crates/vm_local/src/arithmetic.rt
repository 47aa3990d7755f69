//! Arithmetic of Ints and Longs.

ghost use Rattle.std.specs.Prelude.{◌≡◌, ◌<◌};
ghost use Rattle.sl_num.specs.Int.{signed32};
ghost use Rattle.vm_state.specs.Instructions.{Does, ints, longs, long_shift, int_divided, long_divided, int_divide, long_divide, int_negate, long_negate, widen, narrow, order_of, compare_longs};

use sl_num::{IntOp, int, int_div, int_rem, long, long_div, long_rem};
use vm_state::{Division, Effect, Frame, StuckKind, Value};

/// An operation on the top two Ints.
#[inline(always)]
pub fn ints(f: &mut Frame, op: IntOp) -> Effect
    requires { f.old.pc < 65535 }
    ensures { Does (ints op f.old f.old.stack.values) result f.old f.new }
{
    match f.stack.top_two() {
        None => Effect::Stuck(StuckKind::Stack),
        Some((b, a)) => match (a.as_int(), b.as_int()) {
            (Some(a), Some(b)) => {
                f.stack.replace_two(Value::Int(int(op, a, b)));
                f.pc += 1;
                Effect::Done
            }
            _ => Effect::Stuck(StuckKind::WrongKind),
        },
    }
}

/// An operation on the top two Longs.
#[inline(always)]
pub fn longs(f: &mut Frame, op: IntOp) -> Effect
    requires { f.old.pc < 65535 }
    ensures { Does (longs op f.old f.old.stack.values) result f.old f.new }
{
    match f.stack.top_two() {
        None => Effect::Stuck(StuckKind::Stack),
        Some((b, a)) => match (a.as_long(), b.as_long()) {
            (Some(a), Some(b)) => {
                f.stack.replace_two(Value::Long(long(op, a, b)));
                f.pc += 1;
                Effect::Done
            }
            _ => Effect::Stuck(StuckKind::WrongKind),
        },
    }
}

/// Shifts a Long by an Int.
#[inline(always)]
pub fn long_shift(f: &mut Frame, op: IntOp) -> Effect
    requires { f.old.pc < 65535 }
    ensures { Does (long_shift op f.old f.old.stack.values) result f.old f.new }
{
    match f.stack.top_two() {
        None => Effect::Stuck(StuckKind::Stack),
        Some((b, a)) => match (a.as_long(), b.as_int()) {
            (Some(a), Some(b)) => {
                f.stack.replace_two(Value::Long(long(op, a, b as i64)));
                f.pc += 1;
                Effect::Done
            }
            _ => Effect::Stuck(StuckKind::WrongKind),
        },
    }
}

/// A result of a division; None where the divisor is 0.
#[inline(always)]
fn int_divided(division: Division, a: i32, b: i32) -> Option<i32>
    ensures { result ≡ int_divided division a b }
{
    match division {
        Division::Quotient => int_div(a, b),
        Division::Remainder => int_rem(a, b),
    }
}

/// A result of a division; None where the divisor is 0.
#[inline(always)]
fn long_divided(division: Division, a: i64, b: i64) -> Option<i64>
    ensures { result ≡ long_divided division a b }
{
    match division {
        Division::Quotient => long_div(a, b),
        Division::Remainder => long_rem(a, b),
    }
}

/// A division of the top two Ints; by zero an exception is made.
#[inline(always)]
pub fn int_divide(f: &mut Frame, division: Division) -> Effect
    requires { f.old.pc < 65535 }
    ensures { Does (int_divide division f.old f.old.stack.values) result f.old f.new }
{
    match f.stack.top_two() {
        None => Effect::Stuck(StuckKind::Stack),
        Some((b, a)) => match (a.as_int(), b.as_int()) {
            (Some(a), Some(b)) => match int_divided(division, a, b) {
                None => Effect::AtHeap,
                Some(n) => {
                    f.stack.replace_two(Value::Int(n));
                    f.pc += 1;
                    Effect::Done
                }
            },
            _ => Effect::Stuck(StuckKind::WrongKind),
        },
    }
}

/// A division of the top two Longs; by zero an exception is made.
#[inline(always)]
pub fn long_divide(f: &mut Frame, division: Division) -> Effect
    requires { f.old.pc < 65535 }
    ensures { Does (long_divide division f.old f.old.stack.values) result f.old f.new }
{
    match f.stack.top_two() {
        None => Effect::Stuck(StuckKind::Stack),
        Some((b, a)) => match (a.as_long(), b.as_long()) {
            (Some(a), Some(b)) => match long_divided(division, a, b) {
                None => Effect::AtHeap,
                Some(n) => {
                    f.stack.replace_two(Value::Long(n));
                    f.pc += 1;
                    Effect::Done
                }
            },
            _ => Effect::Stuck(StuckKind::WrongKind),
        },
    }
}

/// The negative of the top Int.
#[inline(always)]
pub fn int_negate(f: &mut Frame) -> Effect
    requires { f.old.pc < 65535 }
    ensures { Does (int_negate f.old f.old.stack.values) result f.old f.new }
{
    match f.stack.top() {
        None => Effect::Stuck(StuckKind::Stack),
        Some(v) => match v.as_int() {
            None => Effect::Stuck(StuckKind::WrongKind),
            Some(n) => {
                let _ = f.stack.pop();
                f.stack.push(Value::Int(int(IntOp::Sub, 0, n)));
                f.pc += 1;
                Effect::Done
            }
        },
    }
}

/// The negative of the top Long.
#[inline(always)]
pub fn long_negate(f: &mut Frame) -> Effect
    requires { f.old.pc < 65535 }
    ensures { Does (long_negate f.old f.old.stack.values) result f.old f.new }
{
    match f.stack.top() {
        None => Effect::Stuck(StuckKind::Stack),
        Some(v) => match v.as_long() {
            None => Effect::Stuck(StuckKind::WrongKind),
            Some(n) => {
                let _ = f.stack.pop();
                f.stack.push(Value::Long(long(IntOp::Sub, 0, n)));
                f.pc += 1;
                Effect::Done
            }
        },
    }
}

/// The top Int as a Long.
#[inline(always)]
pub fn widen(f: &mut Frame) -> Effect
    requires { f.old.pc < 65535 }
    ensures { Does (widen f.old f.old.stack.values) result f.old f.new }
{
    match f.stack.top() {
        None => Effect::Stuck(StuckKind::Stack),
        Some(v) => match v.as_int() {
            None => Effect::Stuck(StuckKind::WrongKind),
            Some(n) => {
                if f.stack.fits(1) {
                    let _ = f.stack.pop();
                    f.stack.push(Value::Long(n as i64));
                    f.pc += 1;
                    Effect::Done
                } else {
                    Effect::Stuck(StuckKind::Stack)
                }
            }
        },
    }
}

/// The Int of the low 32 bits.
#[tactic(auto, unfolding(sl_num::specs::Width::signed))]
#[inline]
fn low_bits(n: i64) -> i32
    ensures { result ≡ signed32 n }
{
    ((n as i128 + 2147483648).rem_euclid(4294967296) - 2147483648) as i32
}

/// The low 32 bits of the top Long as an Int.
#[inline(always)]
pub fn narrow(f: &mut Frame) -> Effect
    requires { f.old.pc < 65535 }
    ensures { Does (narrow f.old f.old.stack.values) result f.old f.new }
{
    match f.stack.top() {
        None => Effect::Stuck(StuckKind::Stack),
        Some(v) => match v.as_long() {
            None => Effect::Stuck(StuckKind::WrongKind),
            Some(n) => {
                let _ = f.stack.pop();
                f.stack.push(Value::Int(low_bits(n)));
                f.pc += 1;
                Effect::Done
            }
        },
    }
}

// How two numbers compare: -1, 0 or 1.
#[inline(always)]
fn order_of(a: i64, b: i64) -> i32
    ensures { result ≡ order_of a b }
{
    if a < b {
        -1
    } else if b < a {
        1
    } else {
        0
    }
}

/// How the top two Longs compare, as an Int.
#[inline(always)]
pub fn compare_longs(f: &mut Frame) -> Effect
    requires { f.old.pc < 65535 }
    ensures { Does (compare_longs f.old f.old.stack.values) result f.old f.new }
{
    match f.stack.top_two() {
        None => Effect::Stuck(StuckKind::Stack),
        Some((b, a)) => match (a.as_long(), b.as_long()) {
            (Some(a), Some(b)) => {
                f.stack.replace_two(Value::Int(order_of(a, b)));
                f.pc += 1;
                Effect::Done
            }
            _ => Effect::Stuck(StuckKind::WrongKind),
        },
    }
}
