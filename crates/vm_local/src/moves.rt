//! Operands moved about: pop to swap.

ghost use Rattle.std.specs.Prelude.{◌≡◌, [], ◌∷◌, ◌+◌, ◌++◌, ◌<◌, ◌≤◌, length, take, drop, IfSome};
ghost use Rattle.vm_state.specs.Values.{width, depth};
ghost use Rattle.vm_state.specs.Instructions.{Does, one_unit, two_units, whole, with_copies, pop, dup, dupped, dupped_under, swap};

use cf_link::ValueKind;
use vm_state::{Effect, Frame, Operands, StuckKind, Value};

// How many values the unit is that begins with this operand: one; None where it is half of a Long.
#[inline(always)]
fn one_unit(v: Option<Value>) -> Option<usize>
    ensures { result ≡ one_unit v }
{
    match v {
        None => None,
        Some(v) => {
            if v.is_kind(ValueKind::Long) {
                None
            } else {
                Some(1)
            }
        }
    }
}

// How many values the two units are that begin with these operands; None where half of a Long.
#[inline(always)]
fn two_units(v: Option<Value>, w: Option<Value>) -> Option<usize>
    ensures { result ≡ two_units v w }
{
    match v {
        None => None,
        Some(v) => {
            if v.is_kind(ValueKind::Long) {
                Some(1)
            } else {
                match one_unit(w) {
                    None => None,
                    Some(_) => Some(2),
                }
            }
        }
    }
}

/// How many values these units of depth are (JVMS 2.6.2), from the operand with this number on.
#[inline(always)]
fn whole(stack: &Operands, units: u32, from: usize) -> Option<usize>
    requires { from < 3 }
    ensures value { result ≡ whole units stack.now.values from }
    ensures few { IfSome result (λ count. count < 3) }
{
    if units == 1 {
        one_unit(stack.get(from))
    } else if units == 2 {
        two_units(stack.get(from), stack.get(from + 1))
    } else {
        Some(0)
    }
}

/// Takes the top units off.
#[inline(always)]
pub fn pop(f: &mut Frame, units: u32) -> Effect
    requires { f.old.pc < 65535 }
    ensures { Does (pop units f.old f.old.stack.values) result f.old f.new }
{
    if !f.stack.is_deep(units as usize) {
        return Effect::Stuck(StuckKind::Stack);
    }
    match whole(&f.stack, units, 0) {
        None => Effect::Stuck(StuckKind::WrongKind),
        Some(count) => {
            f.stack.take_off(count);
            f.pc += 1;
            Effect::Done
        }
    }
}

/// Exchanges the top two values.
#[inline(always)]
pub fn swap(f: &mut Frame) -> Effect
    requires { f.old.pc < 65535 }
    ensures { Does (swap f.old f.old.stack.values) result f.old f.new }
{
    match f.stack.top_two() {
        None => Effect::Stuck(StuckKind::Stack),
        Some((a, b)) => {
            if a.is_kind(ValueKind::Long) || b.is_kind(ValueKind::Long) {
                return Effect::Stuck(StuckKind::WrongKind);
            }
            f.stack.turn(b, a);
            f.pc += 1;
            Effect::Done
        }
    }
}

/// Puts a value below so many others.
#[tactic(auto, using(crate::proofs::Copies::depth_insert))]
fn insert(stack: &mut Operands, under: usize, v: Value)
    requires { depth stack.old.values + width v ≤ stack.old.room }
    ensures { stack.new ≡ record { values = take under stack.old.values ++ (v ∷ drop under stack.old.values); room = stack.old.room } }
{
    if under == 0 {
        stack.push(v);
        return;
    }
    match stack.pop() {
        None => stack.push(v),
        Some(top) => {
            insert(stack, under - 1, v);
            stack.push(top);
        }
    }
}

/// Puts copies of so many of the top values below so many.
#[tactic(auto, using(crate::proofs::Copies::copied, crate::proofs::Copies::length_insert))]
fn copy(stack: &mut Operands, count: usize, under: usize)
    requires within { count ≤ under }
    requires there { under ≤ length stack.old.values }
    requires room { depth stack.old.values + depth (take count stack.old.values) ≤ stack.old.room }
    ensures { stack.new ≡ record { values = with_copies count under stack.old.values; room = stack.old.room } }
{
    if count == 0 {
        return;
    }
    if let Some(v) = stack.get(count - 1) {
        insert(stack, under, v);
        copy(stack, count - 1, under);
    }
}

// Copies so many values below more of them.
#[inline(always)]
fn dup_under(f: &mut Frame, units: u32, count: usize, more: Option<usize>) -> Effect
    requires pc { f.old.pc < 65535 }
    requires count { depth (take count f.old.stack.values) ≤ units }
    requires few { count < 3 }
    requires more { IfSome more (λ more. (more < 3) × (count + more ≤ length f.old.stack.values)) }
    ensures { Does (dupped_under f.old f.old.stack.values units count more) result f.old f.new }
{
    match more {
        None => Effect::Stuck(StuckKind::WrongKind),
        Some(more) => {
            if f.stack.fits(units as usize) {
                copy(&mut f.stack, count, count + more);
                f.pc += 1;
                Effect::Done
            } else {
                Effect::Stuck(StuckKind::Stack)
            }
        }
    }
}

/// Copies the top units below the next ones.
#[inline(always)]
pub fn dup(f: &mut Frame, units: u32, under: u32) -> Effect
    requires { f.old.pc < 65535 }
    ensures { Does (dup units under f.old f.old.stack.values) result f.old f.new }
{
    if !f.stack.is_deep(units as usize + under as usize) {
        return Effect::Stuck(StuckKind::Stack);
    }
    match whole(&f.stack, units, 0) {
        None => Effect::Stuck(StuckKind::WrongKind),
        Some(count) => {
            let more = whole(&f.stack, under, count);
            dup_under(f, units, count, more)
        }
    }
}
