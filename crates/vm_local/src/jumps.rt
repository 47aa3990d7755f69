//! Jumps.

ghost use Rattle.std.specs.Prelude.{◌≡◌, ◌<◌};
ghost use Rattle.vm_state.specs.Instructions.{Does, holds, if_zero, if_ints, if_same, if_null};

use cf_link::ValueKind;
use vm_state::{Comparison, Effect, Frame, StuckKind, branch};

/// Whether a comparison holds of two numbers.
#[inline(always)]
pub fn holds(comparison: Comparison, a: i32, b: i32) -> bool
    ensures { result ≡ holds comparison a b }
{
    match comparison {
        Comparison::Equal => !(a < b) && !(b < a),
        Comparison::NotEqual => a < b || b < a,
        Comparison::Less => a < b,
        Comparison::AtLeast => !(a < b),
        Comparison::Greater => b < a,
        Comparison::AtMost => !(b < a),
    }
}

/// Jumps where the top operand compares so with 0.
#[inline(always)]
pub fn if_zero(f: &mut Frame, comparison: Comparison, a: i32) -> Effect
    requires { f.old.pc < 65535 }
    ensures { Does (if_zero comparison f.old a f.old.stack.values) result f.old f.new }
{
    match f.stack.top() {
        None => Effect::Stuck(StuckKind::Stack),
        Some(v) => match v.as_int() {
            None => Effect::Stuck(StuckKind::WrongKind),
            Some(x) => branch(f, 1, a, holds(comparison, x, 0)),
        },
    }
}

/// Jumps where the top two operands compare so.
#[inline(always)]
pub fn if_ints(f: &mut Frame, comparison: Comparison, a: i32) -> Effect
    requires { f.old.pc < 65535 }
    ensures { Does (if_ints comparison f.old a f.old.stack.values) result f.old f.new }
{
    match f.stack.top_two() {
        None => Effect::Stuck(StuckKind::Stack),
        Some((y, x)) => match (x.as_int(), y.as_int()) {
            (Some(x), Some(y)) => branch(f, 2, a, holds(comparison, x, y)),
            _ => Effect::Stuck(StuckKind::WrongKind),
        },
    }
}

/// Jumps where the top two operands are the same, or aren't; two texts are compared on the heap.
#[inline(always)]
pub fn if_same(f: &mut Frame, wanted: bool, a: i32) -> Effect
    requires { f.old.pc < 65535 }
    ensures { Does (if_same wanted f.old a f.old.stack.values) result f.old f.new }
{
    match f.stack.top_two() {
        None => Effect::Stuck(StuckKind::Stack),
        Some((w, v)) => {
            if !(v.is_kind(ValueKind::Reference) && w.is_kind(ValueKind::Reference)) {
                return Effect::Stuck(StuckKind::WrongKind);
            }
            if v.is_text() && w.is_text() {
                return Effect::AtHeap;
            }
            let same = v.is_same(w);
            branch(f, 2, a, if wanted { same } else { !same })
        }
    }
}

/// Jumps where the top operand is null, or isn't.
#[inline(always)]
pub fn if_null(f: &mut Frame, wanted: bool, a: i32) -> Effect
    requires { f.old.pc < 65535 }
    ensures { Does (if_null wanted f.old a f.old.stack.values) result f.old f.new }
{
    match f.stack.top() {
        None => Effect::Stuck(StuckKind::Stack),
        Some(v) => {
            if !v.is_kind(ValueKind::Reference) {
                return Effect::Stuck(StuckKind::WrongKind);
            }
            let null = v.is_null();
            branch(f, 1, a, if wanted { null } else { !null })
        }
    }
}
