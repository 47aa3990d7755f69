//! Operands moved about: pop to swap.

ghost use Rattle.std.specs.Prelude.{◌≡◌, ◌<◌, IfSome};
ghost use Rattle.vm_state.specs.Instructions.{one_unit, two_units, whole, pop, dup, dupped_under, swap};

use cf_link::ValueKind;
use vm_state::{Effect, Frame, Operands, StuckKind, Value};

/// How many values the unit is that begins with this operand: one; None where it is half of a Long.
fn one_unit(v: Option<Value>) -> Option<usize>
    ensures { result ≡ one_unit v }
{
    match v {
        None => None,
        Some(v) => {
            if v.is_kind(ValueKind::Long) {
                None
            } else {
                Some(1)
            }
        }
    }
}

/// How many values the two units are that begin with these operands; None where half of a Long.
fn two_units(v: Option<Value>, w: Option<Value>) -> Option<usize>
    ensures { result ≡ two_units v w }
{
    match v {
        None => None,
        Some(v) => {
            if v.is_kind(ValueKind::Long) {
                Some(1)
            } else {
                match one_unit(w) {
                    None => None,
                    Some(_) => Some(2),
                }
            }
        }
    }
}

/// How many values these units of depth are (JVMS 2.6.2), from the operand with this number on.
fn whole(stack: &Operands, units: u32, from: usize) -> Option<usize>
    requires { from < 3 }
    ensures value { result ≡ whole units stack.now.values from }
    ensures few { IfSome result (λ count. count < 3) }
{
    if units == 1 {
        one_unit(stack.get(from))
    } else if units == 2 {
        two_units(stack.get(from), stack.get(from + 1))
    } else {
        Some(0)
    }
}

/// Of the top units.
pub fn pop(f: &Frame, units: u32) -> Effect
    ensures { result ≡ (pop units f.now f.now.stack.values).effect }
{
    if !f.stack.is_deep(units as usize) {
        return Effect::Stuck(StuckKind::Stack);
    }
    match whole(&f.stack, units, 0) {
        None => Effect::Stuck(StuckKind::WrongKind),
        Some(_) => Effect::Done,
    }
}

/// The top two values exchanged.
pub fn swap(f: &Frame) -> Effect
    ensures { result ≡ (swap f.now f.now.stack.values).effect }
{
    match f.stack.top_two() {
        None => Effect::Stuck(StuckKind::Stack),
        Some((a, b)) => {
            if a.is_kind(ValueKind::Long) || b.is_kind(ValueKind::Long) {
                Effect::Stuck(StuckKind::WrongKind)
            } else {
                Effect::Done
            }
        }
    }
}

/// Copies of so many values below more of them.
fn dup_under(f: &Frame, units: u32, count: usize, more: Option<usize>) -> Effect
    ensures { result ≡ (dupped_under f.now f.now.stack.values units count more).effect }
{
    let _ = count;
    match more {
        None => Effect::Stuck(StuckKind::WrongKind),
        Some(_) => {
            if f.stack.fits(units as usize) {
                Effect::Done
            } else {
                Effect::Stuck(StuckKind::Stack)
            }
        }
    }
}

/// Copies of the top units below the next ones.
pub fn dup(f: &Frame, units: u32, under: u32) -> Effect
    ensures { result ≡ (dup units under f.now f.now.stack.values).effect }
{
    if !f.stack.is_deep(units as usize + under as usize) {
        return Effect::Stuck(StuckKind::Stack);
    }
    match whole(&f.stack, units, 0) {
        None => Effect::Stuck(StuckKind::WrongKind),
        Some(count) => {
            let more = whole(&f.stack, under, count);
            dup_under(f, units, count, more)
        }
    }
}
