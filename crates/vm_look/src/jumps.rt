//! Jumps.

ghost use Rattle.std.specs.Prelude.{◌≡◌, drop};
ghost use Rattle.vm_state.specs.Instructions.{holds, as_index, goes, branches, if_zero, if_ints, if_same, if_null};

use cf_link::ValueKind;
use vm_state::{Comparison, Effect, Frame, StuckKind, as_index};

/// Whether a comparison holds of two numbers.
fn holds(comparison: Comparison, a: i32, b: i32) -> bool
    ensures { result ≡ holds comparison a b }
{
    match comparison {
        Comparison::Equal => !(a < b) && !(b < a),
        Comparison::NotEqual => a < b || b < a,
        Comparison::Less => a < b,
        Comparison::AtLeast => !(a < b),
        Comparison::Greater => b < a,
        Comparison::AtMost => !(b < a),
    }
}

/// The way to this instruction, with so many operands fewer.
pub fn go(f: &Frame, count: usize, a: i32) -> Effect
    ensures { result ≡ (goes f.now (drop count f.now.stack.values) (as_index a)).effect }
{
    let _ = f;
    let _ = count;
    match as_index(a) {
        None => Effect::Stuck(StuckKind::PcOut),
        Some(_) => Effect::Done,
    }
}

/// The way to this instruction or to the next one, with so many operands fewer.
pub fn branch(f: &Frame, count: usize, a: i32, taken: bool) -> Effect
    ensures { result ≡ (branches f.now (drop count f.now.stack.values) a taken).effect }
{
    if taken { go(f, count, a) } else { Effect::Done }
}

/// A jump where the top operand compares so with 0.
pub fn if_zero(f: &Frame, comparison: Comparison, a: i32) -> Effect
    ensures { result ≡ (if_zero comparison f.now a f.now.stack.values).effect }
{
    match f.stack.top() {
        None => Effect::Stuck(StuckKind::Stack),
        Some(v) => match v.as_int() {
            None => Effect::Stuck(StuckKind::WrongKind),
            Some(x) => branch(f, 1, a, holds(comparison, x, 0)),
        },
    }
}

/// A jump where the top two operands compare so.
pub fn if_ints(f: &Frame, comparison: Comparison, a: i32) -> Effect
    ensures { result ≡ (if_ints comparison f.now a f.now.stack.values).effect }
{
    match f.stack.top_two() {
        None => Effect::Stuck(StuckKind::Stack),
        Some((y, x)) => match (x.as_int(), y.as_int()) {
            (Some(x), Some(y)) => branch(f, 2, a, holds(comparison, x, y)),
            _ => Effect::Stuck(StuckKind::WrongKind),
        },
    }
}

/// A jump where the top two operands are the same, or aren't; two texts are compared on the heap.
pub fn if_same(f: &Frame, wanted: bool, a: i32) -> Effect
    ensures { result ≡ (if_same wanted f.now a f.now.stack.values).effect }
{
    match f.stack.top_two() {
        None => Effect::Stuck(StuckKind::Stack),
        Some((w, v)) => {
            if !(v.is_kind(ValueKind::Reference) && w.is_kind(ValueKind::Reference)) {
                return Effect::Stuck(StuckKind::WrongKind);
            }
            if v.is_text() && w.is_text() {
                return Effect::AtHeap;
            }
            let same = v.is_same(w);
            branch(f, 2, a, if wanted { same } else { !same })
        }
    }
}

/// A jump where the top operand is null, or isn't.
pub fn if_null(f: &Frame, wanted: bool, a: i32) -> Effect
    ensures { result ≡ (if_null wanted f.now a f.now.stack.values).effect }
{
    match f.stack.top() {
        None => Effect::Stuck(StuckKind::Stack),
        Some(v) => {
            if !v.is_kind(ValueKind::Reference) {
                return Effect::Stuck(StuckKind::WrongKind);
            }
            let null = v.is_null();
            branch(f, 1, a, if wanted { null } else { !null })
        }
    }
}
