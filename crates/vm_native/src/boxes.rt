//! Boxes and their contents (`lazyrt/Cells`).

ghost use Rattle.std.specs.Prelude.{◌≡◌, ◌<◌};
ghost use Rattle.vm_state.specs.Natives.{box_int, box_long, box_boolean, unbox_int, unbox_long, unbox_boolean};
ghost use Rattle.vm_native.specs.Acts.{Acts};

use crate::results::{give_one, truth};
use cf_link::built_in::CLASS_CAST_EXCEPTION;
use vm_state::{Frame, Heap, HeapEffect, StuckKind, Value};

/// `boxInt(I)O`
pub fn box_int(h: &Heap, f: &mut Frame) -> HeapEffect
    requires { f.old.pc < 65535 }
    ensures { Acts (box_int h.now f.old f.old.stack.values) result h.now h.now f.old f.new }
{
    match f.stack.top() {
        None => HeapEffect::Stuck(StuckKind::Stack),
        Some(Value::Int(n)) => give_one(h, f, Value::BoxInt(n)),
        Some(_) => HeapEffect::Stuck(StuckKind::WrongKind),
    }
}

/// `boxLong(J)O`
pub fn box_long(h: &Heap, f: &mut Frame) -> HeapEffect
    requires { f.old.pc < 65535 }
    ensures { Acts (box_long h.now f.old f.old.stack.values) result h.now h.now f.old f.new }
{
    match f.stack.top() {
        None => HeapEffect::Stuck(StuckKind::Stack),
        Some(Value::Long(n)) => give_one(h, f, Value::BoxLong(n)),
        Some(_) => HeapEffect::Stuck(StuckKind::WrongKind),
    }
}

/// `boxBoolean(Z)O`
pub fn box_boolean(h: &Heap, f: &mut Frame) -> HeapEffect
    requires { f.old.pc < 65535 }
    ensures { Acts (box_boolean h.now f.old f.old.stack.values) result h.now h.now f.old f.new }
{
    match f.stack.top() {
        None => HeapEffect::Stuck(StuckKind::Stack),
        Some(Value::Int(n)) => give_one(h, f, Value::BoxBool(n != 0)),
        Some(_) => HeapEffect::Stuck(StuckKind::WrongKind),
    }
}

/// `unboxInt(O)I`
pub fn unbox_int(h: &Heap, f: &mut Frame) -> HeapEffect
    requires { f.old.pc < 65535 }
    ensures { Acts (unbox_int h.now f.old f.old.stack.values) result h.now h.now f.old f.new }
{
    match f.stack.top() {
        None => HeapEffect::Stuck(StuckKind::Stack),
        Some(Value::BoxInt(n)) => give_one(h, f, Value::Int(n)),
        Some(Value::Null) => give_one(h, f, Value::Int(0)),
        Some(_) => HeapEffect::Fail(CLASS_CAST_EXCEPTION),
    }
}

/// `unboxLong(O)J`
pub fn unbox_long(h: &Heap, f: &mut Frame) -> HeapEffect
    requires { f.old.pc < 65535 }
    ensures { Acts (unbox_long h.now f.old f.old.stack.values) result h.now h.now f.old f.new }
{
    match f.stack.top() {
        None => HeapEffect::Stuck(StuckKind::Stack),
        Some(Value::BoxLong(n)) => give_one(h, f, Value::Long(n)),
        Some(Value::Null) => give_one(h, f, Value::Long(0)),
        Some(_) => HeapEffect::Fail(CLASS_CAST_EXCEPTION),
    }
}

/// `unboxBoolean(O)Z`
pub fn unbox_boolean(h: &Heap, f: &mut Frame) -> HeapEffect
    requires { f.old.pc < 65535 }
    ensures { Acts (unbox_boolean h.now f.old f.old.stack.values) result h.now h.now f.old f.new }
{
    match f.stack.top() {
        None => HeapEffect::Stuck(StuckKind::Stack),
        Some(Value::BoxBool(b)) => give_one(h, f, truth(b)),
        Some(Value::Null) => give_one(h, f, truth(false)),
        Some(_) => HeapEffect::Fail(CLASS_CAST_EXCEPTION),
    }
}
