//! What fields hold, at first and later, and texts compared (JVMS 2.3, 2.4).

ghost use Rattle.std.specs.Prelude.{◌≡◌, ◌<◌, length, drop, slice_get};
ghost use Rattle.std.specs.Option.{option_copied};
ghost use Rattle.vm_state.specs.Heaps.{default, field_at, with_field};
ghost use Rattle.vm_state.specs.Shared.{Shares, written, same_text, same_texts};

use crate::frame::Frame;
use crate::heap::{Heap, Object};
use crate::outcomes::{HeapEffect, StuckKind};
use crate::pushes::pop_off;
use crate::value::Value;
use cf_link::ValueKind;
use sl_base::Name;

/// What a field or static holds at first.
pub fn default_value(kind: ValueKind) -> Value
    ensures { result ≡ default kind }
{
    match kind {
        ValueKind::Int => Value::Int(0),
        ValueKind::Long => Value::Long(0),
        ValueKind::Reference => Value::Null,
    }
}

/// What the field of an object holds that has this number among all its fields.
pub fn field_at(h: &Heap, at: u32, n: u32) -> Option<Value>
    ensures { result ≡ field_at h.now at n }
{
    match h.objects.get(at as usize) {
        Some(o) => match o.fields.get(n as usize) {
            Some(v) => Some(*v),
            None => None,
        },
        None => None,
    }
}

// Sets the field n of an object.
fn set_field(o: &mut Object, n: u32, v: Value)
    requires { n < length o.old.fields }
    ensures { o.new ≡ with_field o.old n v }
{
    *o.fields.at_mut(n as usize) = v;
}

/// Sets a field of an object to the value on top, and takes that and the object off.
pub fn write_field(h: &mut Heap, f: &mut Frame, at: u32, n: u32, v: Value) -> HeapEffect
    requires { f.old.pc < 65535 }
    ensures { Shares (written h.old f.old at n v (drop 2 f.old.stack.values) (slice_get h.old.objects at)) result h.old h.new f.old f.new }
{
    match h.objects.get(at as usize) {
        None => return HeapEffect::Stuck(StuckKind::WrongKind),
        Some(o) => {
            if n as usize >= o.fields.len() {
                return HeapEffect::Stuck(StuckKind::WrongKind);
            }
        }
    }
    set_field(h.objects.at_mut(at as usize), n, v);
    pop_off(f, 2);
    HeapEffect::Done
}

// Whether two texts that are there have the same characters.
fn same_text(a: Option<&Name>, b: Option<&Name>) -> bool
    ensures { result ≡ same_text (option_copied a.entry) (option_copied b.entry) }
{
    match (a, b) {
        (Some(a), Some(b)) => *a == *b,
        _ => false,
    }
}

/// Whether two values are texts with the same characters.
pub fn same_texts(h: &Heap, v: Value, w: Value) -> bool
    ensures { result ≡ same_texts h.now v w }
{
    match (v, w) {
        (Value::Text(a), Value::Text(b)) => {
            same_text(h.texts.get(a as usize), h.texts.get(b as usize))
        }
        _ => false,
    }
}
