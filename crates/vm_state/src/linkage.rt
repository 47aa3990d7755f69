//! What frames and instructions name.

ghost use Rattle.std.specs.Prelude.{◌≡◌, ◌<◌, OnSome};
ghost use Rattle.std.specs.Option.{option_copied};
ghost use Rattle.vm_state.specs.Methods.{method_of, code_of, instr_in, instr_at, entry_of, ref_at, class_of, is_number, initialises, is_initialiser, is_of, is_result};

use crate::frame::Frame;
use crate::going::as_index;
use crate::value::Value;
use cf_form::{Code, Instr};
use cf_link::built_in::{BOOLEAN, INTEGER, LATCH, LONG, OBJECT, STRING, UNIT};
use cf_link::{Linked, LinkedClass, LinkedMethod, LinkedRef, ValueKind, method_at};

/// The method that a frame runs.
#[inline(always)]
pub fn method_of<'a>(k: &'a Linked, f: &Frame) -> Option<&'a LinkedMethod>
    ensures { option_copied result ≡ method_of k.now f.now }
{
    method_at(k.classes.as_slice(), f.class, f.method)
}

/// The code of the method of a class with this number.
#[inline(always)]
pub fn code_of(k: &Linked, class: u32, method: u32) -> Option<&Code>
    ensures { option_copied result ≡ code_of k.now class method }
{
    match method_at(k.classes.as_slice(), class, method) {
        Some(m) => m.code.as_ref(),
        None => None,
    }
}

/// The instruction with this number.
#[inline(always)]
pub fn instr_in(code: &Code, pc: u32) -> Option<Instr>
    ensures instr { result ≡ instr_in code.now pc }
    ensures below { OnSome result (pc < 65535) }
{
    if pc >= 65535 {
        return None;
    }
    match code.instrs.get(pc as usize) {
        Some(i) => Some(*i),
        None => None,
    }
}

/// The instruction where a frame stands.
#[inline(always)]
pub fn instr_at(k: &Linked, f: &Frame) -> Option<Instr>
    ensures instr { result ≡ instr_at k.now f.now }
    ensures below { OnSome result (f.now.pc < 65535) }
{
    match code_of(k, f.class, f.method) {
        Some(code) => instr_in(code, f.pc),
        None => None,
    }
}

// What an index of a pool resolves to; 0 is none.
#[inline(always)]
fn entry_of(refs: &[LinkedRef], index: u32) -> Option<LinkedRef>
    ensures { result ≡ entry_of refs.now index }
{
    if index == 0 {
        return None;
    }
    match refs.get(index as usize - 1) {
        Some(r) => Some(*r),
        None => None,
    }
}

/// What an index of the pool of a class resolves to.
#[inline(always)]
pub fn ref_at(k: &Linked, class: u32, a: i32) -> Option<LinkedRef>
    ensures { result ≡ ref_at k.now class a }
{
    match k.refs.get(class as usize) {
        Some(refs) => match as_index(a) {
            Some(n) => entry_of(refs.as_slice(), n),
            None => None,
        },
        None => None,
    }
}

/// The class of a value.
#[inline(always)]
pub fn class_of(v: Value) -> u32
    ensures { result ≡ class_of v }
{
    match v {
        Value::Ref { at: _, class } => class,
        Value::Text(_) => STRING,
        Value::BoxInt(_) => INTEGER,
        Value::BoxLong(_) => LONG,
        Value::BoxBool(_) => BOOLEAN,
        Value::BoxUnit => UNIT,
        Value::Latch { .. } => LATCH,
        _ => OBJECT,
    }
}

// Whether a number that is there is this one.
#[inline(always)]
fn is_number(number: Option<u32>, n: u32) -> bool
    ensures { result ≡ is_number number n }
{
    match number {
        None => false,
        Some(m) => m == n,
    }
}

// Whether this method of the class initialises it.
#[inline(always)]
fn initialises(class: Option<&LinkedClass>, method: u32) -> bool
    ensures { result ≡ initialises (option_copied class.entry) method }
{
    match class {
        None => false,
        Some(c) => is_number(c.initialiser, method),
    }
}

/// Whether a frame is that of a class's initialiser.
#[inline(always)]
pub fn is_initialiser(k: &Linked, f: &Frame) -> bool
    ensures { result ≡ is_initialiser k.now f.now }
{
    initialises(k.classes.get(f.class as usize), f.method)
}

/// Whether there is a value, of this kind.
#[inline(always)]
pub fn is_of(kind: ValueKind, v: Option<Value>) -> bool
    ensures { result ≡ is_of kind v }
{
    match v {
        None => false,
        Some(v) => v.is_kind(kind),
    }
}

/// Whether a method with this result may give this value, or none.
#[inline(always)]
pub fn is_result(kind: Option<ValueKind>, v: Option<Value>) -> bool
    ensures { result ≡ is_result kind v }
{
    match kind {
        None => v.is_none(),
        Some(kind) => is_of(kind, v),
    }
}
