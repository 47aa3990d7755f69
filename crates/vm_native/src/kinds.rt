//! Names of the classes of values (`lazyrt/Cells`).

ghost use Rattle.std.specs.Prelude.{◌≡◌, ◌∷◌, ◌+◌, ◌<◌, ◌≤◌, drop, length, codes, IfOk};
ghost use Rattle.vm_state.specs.Values.{width, depth};
ghost use Rattle.vm_state.specs.Natives.{gives_text, class_text, kind_of};
ghost use Rattle.vm_native.specs.Acts.{Acts};

use crate::names::class_text;
use cf_link::Linked;
use sl_base::{Name, NoMemory};
use std::alloc::Global;
use vm_state::{Frame, Heap, HeapEffect, StuckKind, Value, class_of};

/// A new text in the place of the top operand.
#[tactic(auto, using(crate::proofs::Widths::width_some))]
pub(crate) fn give_text(h: &mut Heap, f: &mut Frame, text: Name) -> HeapEffect
    requires pc { f.old.pc < 65535 }
    requires some { 0 < length f.old.stack.values }
    ensures { Acts (gives_text h.old f.old (drop 1 f.old.stack.values) text) result h.old h.new f.old f.new }
{
    let at = h.texts.len();
    if at >= 4294967295 {
        return HeapEffect::Memory;
    }
    if h.texts.push(text).is_err() {
        return HeapEffect::Memory;
    }
    let _ = f.stack.pop();
    f.stack.push(Value::Text(at as u32));
    f.pc += 1;
    HeapEffect::Done
}

fn give_class(alloc: Global, k: &Linked, h: &mut Heap, f: &mut Frame, class: u32) -> HeapEffect
    requires pc { f.old.pc < 65535 }
    requires some { 0 < length f.old.stack.values }
    ensures { Acts (gives_text h.old f.old (drop 1 f.old.stack.values) (class_text k.now class)) result h.old h.new f.old f.new }
{
    match class_text(alloc, k, class) {
        Err(_) => HeapEffect::Memory,
        Ok(text) => give_text(h, f, text),
    }
}

#[tactic(auto, using(crate::proofs::Characters::null_chars))]
fn null_text(alloc: Global) -> Result<Name, NoMemory>
    ensures { IfOk result (λ text. text ≡ codes "null") }
{
    Ok(Name::from_text(alloc, "null")?)
}

pub(crate) fn give_null(alloc: Global, h: &mut Heap, f: &mut Frame) -> HeapEffect
    requires pc { f.old.pc < 65535 }
    requires some { 0 < length f.old.stack.values }
    ensures { Acts (gives_text h.old f.old (drop 1 f.old.stack.values) (codes "null")) result h.old h.new f.old f.new }
{
    match null_text(alloc) {
        Err(_) => HeapEffect::Memory,
        Ok(text) => give_text(h, f, text),
    }
}

/// `kindOf(O)S`: without memory nothing changes.
pub fn kind_of(alloc: Global, k: &Linked, h: &mut Heap, f: &mut Frame) -> HeapEffect
    requires { f.old.pc < 65535 }
    ensures { Acts (kind_of k.now h.old f.old f.old.stack.values) result h.old h.new f.old f.new }
{
    match f.stack.top() {
        None => HeapEffect::Stuck(StuckKind::Stack),
        Some(Value::Null) => give_null(alloc, h, f),
        Some(v) => give_class(alloc, k, h, f, class_of(v)),
    }
}
