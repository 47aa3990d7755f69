//! Fields that are compared and set (`lazyrt/Cells`).

ghost use Rattle.std.specs.Prelude.{◌≡◌, ◌∷◌, ◌+◌, ◌<◌, ◌≤◌, drop, length, slice_get, MatchOption};
ghost use Rattle.vm_native.specs.Acts.{Acts};
ghost use Rattle.vm_state.specs.Values.{depth, width};
ghost use Rattle.vm_state.specs.Instructions.{next};
ghost use Rattle.vm_state.specs.Natives.{exchanged_at, exchanged_named, exchanges, cas};

use crate::field_names::field_named;
use crate::objects::identical;
use crate::results::truth;
use crate::writing::set_field;
use cf_link::Linked;
use cf_link::built_in::NULL_POINTER_EXCEPTION;
use vm_state::{Frame, Heap, HeapEffect, Operands, StuckKind, Value};

/// The four values on top, from the top on: the arguments of `cas`.
#[derive(Clone, Copy)]
pub struct Four {
    pub new: Value,
    pub expected: Value,
    pub name: Value,
    pub object: Value,
}

/// The arguments of `cas`, where there are four operands.
#[tactic(auto, using(crate::proofs::Fours::four))]
pub fn top_four(stack: &Operands) -> Option<Four>
    ensures { MatchOption result (length stack.now.values < 4) (λ four.
        stack.now.values ≡ four.new ∷ four.expected ∷ four.name ∷ four.object ∷ drop 4 stack.now.values) }
{
    let Some(object) = stack.get(3) else {
        return None;
    };
    let Some(name) = stack.get(2) else {
        return None;
    };
    let Some(expected) = stack.get(1) else {
        return None;
    };
    let Some(new) = stack.get(0) else {
        return None;
    };
    Some(Four {
        new,
        expected,
        name,
        object,
    })
}

/// Puts a value of one place in the place of the top four operands.
#[tactic(auto, using(crate::proofs::Widths::width_some, crate::proofs::Fours::drop_next))]
fn replace_four(f: &mut Frame, v: Value)
    requires pc { f.old.pc < 65535 }
    requires four { 4 ≤ length f.old.stack.values }
    requires narrow { width v ≡ 1 }
    ensures frame { f.new ≡ (next f.old (v ∷ drop 4 f.old.stack.values)).frame }
    ensures room { depth (drop 4 f.old.stack.values) + 1 ≤ f.old.stack.room }
{
    f.stack.take_off(3);
    let _ = f.stack.pop();
    f.stack.push(v);
    f.pc += 1;
}

/// Sets a field of an object to the new value where it holds the expected one.
fn exchange(h: &mut Heap, f: &mut Frame, at: u32, n: Option<usize>, four: Four) -> HeapEffect
    requires pc { f.old.pc < 65535 }
    requires four { 4 ≤ length f.old.stack.values }
    ensures { Acts (exchanged_at h.old f.old (drop 4 f.old.stack.values) at four.expected four.new (slice_get h.old.objects at) n) result h.old h.new f.old f.new }
{
    let Some(o) = h.objects.get(at as usize) else {
        return HeapEffect::Stuck(StuckKind::WrongKind);
    };
    let Some(n) = n else {
        return HeapEffect::Stuck(StuckKind::WrongKind);
    };
    let Some(v) = o.fields.get(n) else {
        return HeapEffect::Stuck(StuckKind::WrongKind);
    };
    if identical(h, *v, four.expected) {
        set_field(h.objects.at_mut(at as usize), n, four.new);
        replace_four(f, truth(true));
    } else {
        replace_four(f, truth(false));
    }
    HeapEffect::Done
}

fn exchange_named(
    k: &Linked,
    h: &mut Heap,
    f: &mut Frame,
    at: u32,
    of: u32,
    name: u32,
    four: Four,
) -> HeapEffect
    requires pc { f.old.pc < 65535 }
    requires four { 4 ≤ length f.old.stack.values }
    ensures { Acts (exchanged_named k.now h.old f.old (drop 4 f.old.stack.values) at of four.expected four.new (slice_get h.old.texts name)) result h.old h.new f.old f.new }
{
    let Some(text) = h.texts.get(name as usize) else {
        return HeapEffect::Stuck(StuckKind::WrongKind);
    };
    let n = field_named(k, text, of);
    exchange(h, f, at, n, four)
}

fn exchanges(k: &Linked, h: &mut Heap, f: &mut Frame, four: Four) -> HeapEffect
    requires pc { f.old.pc < 65535 }
    requires four { 4 ≤ length f.old.stack.values }
    ensures { Acts (exchanges k.now h.old f.old (drop 4 f.old.stack.values) four.object four.name four.expected four.new) result h.old h.new f.old f.new }
{
    match (four.object, four.name) {
        (Value::Ref { at, class: of }, Value::Text(name)) => {
            exchange_named(k, h, f, at, of, name, four)
        }
        (Value::Null, Value::Text(_)) => HeapEffect::Fail(NULL_POINTER_EXCEPTION),
        _ => HeapEffect::Stuck(StuckKind::WrongKind),
    }
}

/// `cas(OSOO)Z`
pub fn cas(k: &Linked, h: &mut Heap, f: &mut Frame) -> HeapEffect
    requires { f.old.pc < 65535 }
    ensures { Acts (cas k.now h.old f.old f.old.stack.values) result h.old h.new f.old f.new }
{
    match top_four(&f.stack) {
        None => HeapEffect::Stuck(StuckKind::Stack),
        Some(four) => exchanges(k, h, f, four),
    }
}
