//! Texts of values (`java/lang/Object`, `lazyrt/Cells`).

ghost use Rattle.std.specs.Prelude.{◌≡◌, ◌<◌, drop, length, codes, IfOk};
ghost use Rattle.vm_state.specs.Natives.{truth_text, text_of, told, object_to_string, is_box, text};
ghost use Rattle.vm_native.specs.Acts.{Acts};

use crate::kinds::{give_null, give_text};
use crate::names::class_text;
use crate::numbers::decimal_text;
use crate::results::give_one;
use cf_link::Linked;
use cf_link::built_in::CLASS_CAST_EXCEPTION;
use sl_base::{Name, NoMemory};
use std::alloc::Global;
use vm_state::{Frame, Heap, HeapEffect, StuckKind, Value, class_of};

#[tactic(auto, using(crate::proofs::Characters::true_chars, crate::proofs::Characters::false_chars))]
fn truth_text(alloc: Global, b: bool) -> Result<Name, NoMemory>
    ensures { IfOk result (λ text. text ≡ truth_text b) }
{
    if b {
        Ok(Name::from_text(alloc, "true")?)
    } else {
        Ok(Name::from_text(alloc, "false")?)
    }
}

#[tactic(auto, using(crate::proofs::Characters::unit_chars))]
fn unit_text(alloc: Global) -> Result<Name, NoMemory>
    ensures { IfOk result (λ text. text ≡ codes "()") }
{
    Ok(Name::from_text(alloc, "()")?)
}

/// The text of a value that is no text: of a box its content, else the name of the class.
fn text_of(alloc: Global, k: &Linked, v: Value) -> Result<Name, NoMemory>
    ensures { IfOk result (λ text. text ≡ text_of k.now v) }
{
    match v {
        Value::BoxInt(n) => decimal_text(alloc, n as i64),
        Value::BoxLong(n) => decimal_text(alloc, n),
        Value::BoxBool(b) => truth_text(alloc, b),
        Value::BoxUnit => unit_text(alloc),
        _ => class_text(alloc, k, class_of(v)),
    }
}

/// The text of a value in the place of the top operand; a text is its own text.
pub(crate) fn tell(alloc: Global, k: &Linked, h: &mut Heap, f: &mut Frame, v: Value) -> HeapEffect
    requires pc { f.old.pc < 65535 }
    requires some { 0 < length f.old.stack.values }
    ensures { Acts (told k.now h.old f.old (drop 1 f.old.stack.values) v) result h.old h.new f.old f.new }
{
    match v {
        Value::Text(at) => give_one(h, f, Value::Text(at)),
        _ => match text_of(alloc, k, v) {
            Err(_) => HeapEffect::Memory,
            Ok(text) => give_text(h, f, text),
        },
    }
}

/// `Object.toString()S`: without memory nothing changes.
pub fn object_to_string(alloc: Global, k: &Linked, h: &mut Heap, f: &mut Frame) -> HeapEffect
    requires { f.old.pc < 65535 }
    ensures { Acts (object_to_string k.now h.old f.old f.old.stack.values) result h.old h.new f.old f.new }
{
    match f.stack.top() {
        None => HeapEffect::Stuck(StuckKind::Stack),
        Some(v) => tell(alloc, k, h, f, v),
    }
}

fn is_box(v: Value) -> bool
    ensures { result ≡ is_box v }
{
    match v {
        Value::BoxInt(_) => true,
        Value::BoxLong(_) => true,
        Value::BoxBool(_) => true,
        Value::BoxUnit => true,
        _ => false,
    }
}

/// `text(O)S`: without memory nothing changes.
pub fn text(alloc: Global, k: &Linked, h: &mut Heap, f: &mut Frame) -> HeapEffect
    requires { f.old.pc < 65535 }
    ensures { Acts (text k.now h.old f.old f.old.stack.values) result h.old h.new f.old f.new }
{
    match f.stack.top() {
        None => HeapEffect::Stuck(StuckKind::Stack),
        Some(Value::Null) => give_null(alloc, h, f),
        Some(v) => {
            if v.is_text() || is_box(v) {
                tell(alloc, k, h, f, v)
            } else {
                HeapEffect::Fail(CLASS_CAST_EXCEPTION)
            }
        }
    }
}
