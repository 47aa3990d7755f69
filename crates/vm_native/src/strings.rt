//! Texts measured, joined and printed (`java/lang/String`, `lazyrt/Cells`).

ghost use Rattle.std.specs.Prelude.{◌≡◌, ◌+◌, ◌++◌, ◌∷◌, ◌<◌, ◌≤◌, [], drop, length, if◌then◌else◌, nat_lt, slice_get, IfOk};
ghost use Rattle.std.specs.Str.{chars};
ghost use Rattle.vm_state.specs.Values.{depth};
ghost use Rattle.vm_state.specs.Natives.{code_units, is_empty, measured, string_length, emptied, string_is_empty, joined_text, gives_text, joined, may_be_text, concats, concat, printed, println};
ghost use Rattle.vm_native.specs.Acts.{Acts};

use crate::results::{give_one, replace_two, truth};
use cf_link::built_in::{NULL_POINTER_EXCEPTION, OUT_OF_MEMORY_ERROR};
use sl_base::{Name, NoMemory};
use std::alloc::Global;
use ty_prog::Event;
use vm_state::{Frame, Heap, HeapEffect, StuckKind, Value, pop_off};

/// How many UTF-16 units a character has.
fn width(c: char) -> u64
    ensures { result ≡ if nat_lt c 65536 then 1 else 2 }
{
    if (c as u32) < 65536 { 1 } else { 2 }
}

fn add(count: u64, more: u64) -> Result<u64, NoMemory>
    ensures { IfOk result (λ n. n ≡ count + more) }
{
    match count.checked_add(more) {
        Some(n) => Ok(n),
        None => Err(NoMemory),
    }
}

#[tactic(auto, using(crate::proofs::Units::code_units_push))]
fn code_units_of(text: &str) -> Result<u64, NoMemory>
    ensures { IfOk result (λ n. n ≡ code_units (chars text.now)) }
{
    let mut count: u64 = 0;
    for character in text.chars() {
        count = add(count, width(character))?;
    }
    Ok(count)
}

/// How many UTF-16 units a text has.
fn code_units(text: &Name) -> Result<u64, NoMemory>
    ensures { IfOk result (λ n. n ≡ code_units text.now) }
{
    code_units_of(text.as_str())
}

fn measure(h: &Heap, f: &mut Frame, at: u32) -> HeapEffect
    requires pc { f.old.pc < 65535 }
    requires some { 0 < length f.old.stack.values }
    ensures { Acts (measured h.now f.old (drop 1 f.old.stack.values) (slice_get h.now.texts at)) result h.now h.now f.old f.new }
{
    match h.texts.get(at as usize) {
        None => HeapEffect::Stuck(StuckKind::WrongKind),
        Some(text) => match code_units(text) {
            Err(_) => HeapEffect::Memory,
            Ok(count) => {
                if count < 1 << 31 {
                    give_one(h, f, Value::Int(count as i32))
                } else {
                    HeapEffect::Memory
                }
            }
        },
    }
}

/// `String.length()I`
pub fn string_length(h: &Heap, f: &mut Frame) -> HeapEffect
    requires { f.old.pc < 65535 }
    ensures { Acts (string_length h.now f.old f.old.stack.values) result h.now h.now f.old f.new }
{
    match f.stack.top() {
        None => HeapEffect::Stuck(StuckKind::Stack),
        Some(Value::Text(at)) => measure(h, f, at),
        Some(_) => HeapEffect::Stuck(StuckKind::WrongKind),
    }
}

fn is_empty(text: &Name) -> bool
    ensures { result ≡ is_empty text.now }
{
    text.as_str().chars().next().is_none()
}

fn empty(h: &Heap, f: &mut Frame, at: u32) -> HeapEffect
    requires pc { f.old.pc < 65535 }
    requires some { 0 < length f.old.stack.values }
    ensures { Acts (emptied h.now f.old (drop 1 f.old.stack.values) (slice_get h.now.texts at)) result h.now h.now f.old f.new }
{
    match h.texts.get(at as usize) {
        None => HeapEffect::Stuck(StuckKind::WrongKind),
        Some(text) => give_one(h, f, truth(is_empty(text))),
    }
}

/// `String.isEmpty()Z`
pub fn string_is_empty(h: &Heap, f: &mut Frame) -> HeapEffect
    requires { f.old.pc < 65535 }
    ensures { Acts (string_is_empty h.now f.old f.old.stack.values) result h.now h.now f.old f.new }
{
    match f.stack.top() {
        None => HeapEffect::Stuck(StuckKind::Stack),
        Some(Value::Text(at)) => empty(h, f, at),
        Some(_) => HeapEffect::Stuck(StuckKind::WrongKind),
    }
}

fn print(alloc: Global, h: &mut Heap, f: &mut Frame, thread: u32, at: u32) -> HeapEffect
    requires { f.old.pc < 65535 }
    ensures { Acts (printed h.old f.old thread (drop 1 f.old.stack.values) (slice_get h.old.texts at)) result h.old h.new f.old f.new }
{
    let Some(text) = h.texts.get(at as usize) else {
        return HeapEffect::Stuck(StuckKind::WrongKind);
    };
    let Ok(text) = text.copy(alloc) else {
        return HeapEffect::Memory;
    };
    if h.trace.push(Event::Line { thread, text }).is_err() {
        return HeapEffect::Memory;
    }
    pop_off(f, 1);
    HeapEffect::Done
}

/// `println(S)V`: without memory nothing changes.
pub fn println(alloc: Global, h: &mut Heap, f: &mut Frame, thread: u32) -> HeapEffect
    requires { f.old.pc < 65535 }
    ensures { Acts (println h.old f.old thread f.old.stack.values) result h.old h.new f.old f.new }
{
    match f.stack.top() {
        None => HeapEffect::Stuck(StuckKind::Stack),
        Some(Value::Text(at)) => print(alloc, h, f, thread, at),
        Some(Value::Null) => HeapEffect::Fail(NULL_POINTER_EXCEPTION),
        Some(_) => HeapEffect::Stuck(StuckKind::WrongKind),
    }
}

pub(crate) fn join(alloc: Global, a: &Name, b: &Name) -> Result<Name, NoMemory>
    ensures { IfOk result (λ made. made ≡ a.now ++ b.now) }
{
    let mut text = String::from_str(alloc, a.as_str())?;
    text.push_str(b.as_str())?;
    Ok(Name::from_string(text))
}

fn too_long(a: &Name, b: &Name) -> Result<bool, NoMemory>
    ensures { IfOk result (λ long. long ≡ nat_lt 1000000 (code_units a.now + code_units b.now)) }
{
    let count = add(code_units(a)?, code_units(b)?)?;
    Ok(count > 1_000_000)
}

/// Two texts joined; None where that would have too many UTF-16 units.
pub(crate) fn join_text(alloc: Global, a: &Name, b: &Name) -> Result<Option<Name>, NoMemory>
    ensures { IfOk result (λ made. made ≡ joined_text a.now b.now) }
{
    if too_long(a, b)? {
        Ok(None)
    } else {
        Ok(Some(join(alloc, a, b)?))
    }
}

/// A new text in the place of the top two operands.
fn give_two(h: &mut Heap, f: &mut Frame, text: Name) -> HeapEffect
    requires pc { f.old.pc < 65535 }
    requires two { 2 ≤ length f.old.stack.values }
    requires room { depth (drop 2 f.old.stack.values) + 2 ≤ f.old.stack.room }
    ensures { Acts (gives_text h.old f.old (drop 2 f.old.stack.values) text) result h.old h.new f.old f.new }
{
    let at = h.texts.len();
    if at >= 4294967295 {
        return HeapEffect::Memory;
    }
    if h.texts.push(text).is_err() {
        return HeapEffect::Memory;
    }
    replace_two(f, Value::Text(at as u32));
    HeapEffect::Done
}

fn join_two(alloc: Global, h: &mut Heap, f: &mut Frame, a: u32, b: u32) -> HeapEffect
    requires pc { f.old.pc < 65535 }
    requires two { 2 ≤ length f.old.stack.values }
    requires room { depth (drop 2 f.old.stack.values) + 2 ≤ f.old.stack.room }
    ensures { Acts (joined h.old f.old (drop 2 f.old.stack.values) (slice_get h.old.texts a) (slice_get h.old.texts b)) result h.old h.new f.old f.new }
{
    let Some(one) = h.texts.get(a as usize) else {
        return HeapEffect::Stuck(StuckKind::WrongKind);
    };
    let Some(other) = h.texts.get(b as usize) else {
        return HeapEffect::Stuck(StuckKind::WrongKind);
    };
    match join_text(alloc, one, other) {
        Err(_) => HeapEffect::Memory,
        Ok(None) => HeapEffect::Fail(OUT_OF_MEMORY_ERROR),
        Ok(Some(text)) => give_two(h, f, text),
    }
}

fn may_be_text(v: Value) -> bool
    ensures { result ≡ may_be_text v }
{
    v.is_null() || v.is_text()
}

fn concats(alloc: Global, h: &mut Heap, f: &mut Frame, v: Value, w: Value) -> HeapEffect
    requires pc { f.old.pc < 65535 }
    requires two { 2 ≤ length f.old.stack.values }
    requires room { depth (drop 2 f.old.stack.values) + 2 ≤ f.old.stack.room }
    ensures { Acts (concats h.old f.old (drop 2 f.old.stack.values) v w) result h.old h.new f.old f.new }
{
    match (v, w) {
        (Value::Text(a), Value::Text(b)) => join_two(alloc, h, f, a, b),
        _ => {
            if may_be_text(v) && may_be_text(w) {
                HeapEffect::Fail(NULL_POINTER_EXCEPTION)
            } else {
                HeapEffect::Stuck(StuckKind::WrongKind)
            }
        }
    }
}

/// `concat(SS)S`: without memory nothing changes.
pub fn concat(alloc: Global, h: &mut Heap, f: &mut Frame) -> HeapEffect
    requires { f.old.pc < 65535 }
    ensures { Acts (concat h.old f.old f.old.stack.values) result h.old h.new f.old f.new }
{
    match f.stack.top_two() {
        None => HeapEffect::Stuck(StuckKind::Stack),
        Some((w, v)) => concats(alloc, h, f, v, w),
    }
}
