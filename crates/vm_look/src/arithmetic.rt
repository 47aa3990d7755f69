//! Arithmetic of Ints and Longs.

ghost use Rattle.std.specs.Prelude.{◌≡◌};
ghost use Rattle.vm_state.specs.Instructions.{ints, longs, long_shift, int_divide, long_divide, int_negate, long_negate, widen, narrow, compare_longs};

use sl_num::{IntOp, int_div, int_rem, long_div, long_rem};
use vm_state::{Division, Effect, Frame, StuckKind};

/// An operation on the top two Ints.
pub fn ints(f: &Frame, op: IntOp) -> Effect
    ensures { result ≡ (ints op f.now f.now.stack.values).effect }
{
    let _ = op;
    match f.stack.top_two() {
        None => Effect::Stuck(StuckKind::Stack),
        Some((b, a)) => match (a.as_int(), b.as_int()) {
            (Some(_), Some(_)) => Effect::Done,
            _ => Effect::Stuck(StuckKind::WrongKind),
        },
    }
}

/// An operation on the top two Longs.
pub fn longs(f: &Frame, op: IntOp) -> Effect
    ensures { result ≡ (longs op f.now f.now.stack.values).effect }
{
    let _ = op;
    match f.stack.top_two() {
        None => Effect::Stuck(StuckKind::Stack),
        Some((b, a)) => match (a.as_long(), b.as_long()) {
            (Some(_), Some(_)) => Effect::Done,
            _ => Effect::Stuck(StuckKind::WrongKind),
        },
    }
}

/// A shift of a Long by an Int.
pub fn long_shift(f: &Frame, op: IntOp) -> Effect
    ensures { result ≡ (long_shift op f.now f.now.stack.values).effect }
{
    let _ = op;
    match f.stack.top_two() {
        None => Effect::Stuck(StuckKind::Stack),
        Some((b, a)) => match (a.as_long(), b.as_int()) {
            (Some(_), Some(_)) => Effect::Done,
            _ => Effect::Stuck(StuckKind::WrongKind),
        },
    }
}

/// A division of the top two Ints; by zero an exception is made.
pub fn int_divide(f: &Frame, division: Division) -> Effect
    ensures { result ≡ (int_divide division f.now f.now.stack.values).effect }
{
    match f.stack.top_two() {
        None => Effect::Stuck(StuckKind::Stack),
        Some((b, a)) => match (a.as_int(), b.as_int()) {
            (Some(a), Some(b)) => {
                let divided = match division {
                    Division::Quotient => int_div(a, b),
                    Division::Remainder => int_rem(a, b),
                };
                match divided {
                    None => Effect::AtHeap,
                    Some(_) => Effect::Done,
                }
            }
            _ => Effect::Stuck(StuckKind::WrongKind),
        },
    }
}

/// A division of the top two Longs; by zero an exception is made.
pub fn long_divide(f: &Frame, division: Division) -> Effect
    ensures { result ≡ (long_divide division f.now f.now.stack.values).effect }
{
    match f.stack.top_two() {
        None => Effect::Stuck(StuckKind::Stack),
        Some((b, a)) => match (a.as_long(), b.as_long()) {
            (Some(a), Some(b)) => {
                let divided = match division {
                    Division::Quotient => long_div(a, b),
                    Division::Remainder => long_rem(a, b),
                };
                match divided {
                    None => Effect::AtHeap,
                    Some(_) => Effect::Done,
                }
            }
            _ => Effect::Stuck(StuckKind::WrongKind),
        },
    }
}

/// The negative of the top Int.
pub fn int_negate(f: &Frame) -> Effect
    ensures { result ≡ (int_negate f.now f.now.stack.values).effect }
{
    match f.stack.top() {
        None => Effect::Stuck(StuckKind::Stack),
        Some(v) => match v.as_int() {
            None => Effect::Stuck(StuckKind::WrongKind),
            Some(_) => Effect::Done,
        },
    }
}

/// The negative of the top Long.
pub fn long_negate(f: &Frame) -> Effect
    ensures { result ≡ (long_negate f.now f.now.stack.values).effect }
{
    match f.stack.top() {
        None => Effect::Stuck(StuckKind::Stack),
        Some(v) => match v.as_long() {
            None => Effect::Stuck(StuckKind::WrongKind),
            Some(_) => Effect::Done,
        },
    }
}

/// The top Int as a Long.
pub fn widen(f: &Frame) -> Effect
    ensures { result ≡ (widen f.now f.now.stack.values).effect }
{
    match f.stack.top() {
        None => Effect::Stuck(StuckKind::Stack),
        Some(v) => match v.as_int() {
            None => Effect::Stuck(StuckKind::WrongKind),
            Some(_) => {
                if f.stack.fits(1) {
                    Effect::Done
                } else {
                    Effect::Stuck(StuckKind::Stack)
                }
            }
        },
    }
}

/// The low 32 bits of the top Long as an Int.
pub fn narrow(f: &Frame) -> Effect
    ensures { result ≡ (narrow f.now f.now.stack.values).effect }
{
    match f.stack.top() {
        None => Effect::Stuck(StuckKind::Stack),
        Some(v) => match v.as_long() {
            None => Effect::Stuck(StuckKind::WrongKind),
            Some(_) => Effect::Done,
        },
    }
}

/// How the top two Longs compare.
pub fn compare_longs(f: &Frame) -> Effect
    ensures { result ≡ (compare_longs f.now f.now.stack.values).effect }
{
    match f.stack.top_two() {
        None => Effect::Stuck(StuckKind::Stack),
        Some((b, a)) => match (a.as_long(), b.as_long()) {
            (Some(_), Some(_)) => Effect::Done,
            _ => Effect::Stuck(StuckKind::WrongKind),
        },
    }
}
