//! What built-in methods leave in the place of their operands.

ghost use Rattle.std.specs.Prelude.{◌≡◌, ◌∷◌, ◌+◌, ◌<◌, ◌≤◌, length, drop};
ghost use Rattle.vm_state.specs.Values.{width, depth};
ghost use Rattle.vm_state.specs.Instructions.{next};
ghost use Rattle.vm_state.specs.Local.{truth};
ghost use Rattle.vm_state.specs.Natives.{gives};
ghost use Rattle.vm_native.specs.Acts.{Acts};

use vm_state::{Effect, Frame, Heap, HeapEffect, StuckKind, Value, push, replace_top};

/// An Int that says whether something holds.
#[inline]
pub(crate) fn truth(b: bool) -> Value
    ensures { result ≡ truth b }
{
    Value::Int(if b { 1 } else { 0 })
}

/// A result on top of the operands.
#[inline]
pub fn give(h: &Heap, f: &mut Frame, v: Value) -> HeapEffect
    requires { f.old.pc < 65535 }
    ensures { Acts (gives h.now f.old f.old.stack.values v) result h.now h.now f.old f.new }
{
    match push(f, v) {
        Effect::Done => HeapEffect::Done,
        Effect::Stuck(kind) => HeapEffect::Stuck(kind),
        _ => HeapEffect::Stuck(StuckKind::WrongKind),
    }
}

/// A result in the place of the top operand.
#[inline]
pub fn give_one(h: &Heap, f: &mut Frame, v: Value) -> HeapEffect
    requires pc { f.old.pc < 65535 }
    requires some { 0 < length f.old.stack.values }
    ensures { Acts (gives h.now f.old (drop 1 f.old.stack.values) v) result h.now h.now f.old f.new }
{
    match replace_top(f, v) {
        Effect::Done => HeapEffect::Done,
        Effect::Stuck(kind) => HeapEffect::Stuck(kind),
        _ => HeapEffect::Stuck(StuckKind::WrongKind),
    }
}

/// Puts a value of category 1 where the top two operands were.
pub(crate) fn replace_two(f: &mut Frame, v: Value)
    requires pc { f.old.pc < 65535 }
    requires two { 2 ≤ length f.old.stack.values }
    requires room { depth (drop 2 f.old.stack.values) + 2 ≤ f.old.stack.room }
    requires narrow { width v ≡ 1 }
    ensures { f.new ≡ (next f.old (v ∷ drop 2 f.old.stack.values)).frame }
{
    f.stack.replace_two(v);
    f.pc += 1;
}
