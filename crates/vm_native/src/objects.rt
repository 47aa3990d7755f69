//! Methods of `java/lang/Object`.

ghost use Rattle.std.specs.Prelude.{◌≡◌, ◌<◌};
ghost use Rattle.vm_state.specs.Natives.{number_in, same_numbers, identical, equal, object_init, object_equals};
ghost use Rattle.vm_native.specs.Acts.{Acts};

use crate::results::{replace_two, truth};
use vm_state::{Frame, Heap, HeapEffect, StuckKind, Value, pop_off, same_texts};

fn number_in(v: Value) -> Option<i64>
    ensures { result ≡ number_in v }
{
    match v {
        Value::BoxInt(n) => Some(n as i64),
        Value::BoxLong(n) => Some(n),
        _ => None,
    }
}

fn same_numbers(a: Option<i64>, b: Option<i64>) -> bool
    ensures { result ≡ same_numbers a b }
{
    match (a, b) {
        (Some(a), Some(b)) => a == b,
        _ => false,
    }
}

/// Whether two values are one and the same, or texts of the same characters.
pub(crate) fn identical(h: &Heap, v: Value, w: Value) -> bool
    ensures { result ≡ identical h.now v w }
{
    same_texts(h, v, w) || v.is_same(w)
}

fn equal(h: &Heap, v: Value, w: Value) -> bool
    ensures { result ≡ equal h.now v w }
{
    same_numbers(number_in(v), number_in(w)) || identical(h, v, w)
}

/// `Object.<init>()V`
pub fn object_init(h: &Heap, f: &mut Frame) -> HeapEffect
    requires { f.old.pc < 65535 }
    ensures { Acts (object_init h.now f.old f.old.stack.values) result h.now h.now f.old f.new }
{
    match f.stack.top() {
        None => HeapEffect::Stuck(StuckKind::Stack),
        Some(_) => {
            pop_off(f, 1);
            HeapEffect::Done
        }
    }
}

/// `Object.equals(O)Z`
pub fn object_equals(h: &Heap, f: &mut Frame) -> HeapEffect
    requires { f.old.pc < 65535 }
    ensures { Acts (object_equals h.now f.old f.old.stack.values) result h.now h.now f.old f.new }
{
    match f.stack.top_two() {
        None => HeapEffect::Stuck(StuckKind::Stack),
        Some((w, v)) => {
            replace_two(f, truth(equal(h, v, w)));
            HeapEffect::Done
        }
    }
}
