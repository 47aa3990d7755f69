//! Fields (JVMS 6.5: getfield, putfield).

ghost use Rattle.std.specs.Prelude.{◌≡◌, ◌<◌, length, drop};
ghost use Rattle.std.specs.Option.{option_copied};
ghost use Rattle.vm_native.specs.Acts.{Acts};
ghost use Rattle.vm_state.specs.Heaps.{field_at};
ghost use Rattle.vm_state.specs.Shared.{got, is_slot_of, has_field, gets_field, field_named, get_field, fits_slot, puts_field, field_put, put_field};

use cf_link::built_in::NULL_POINTER_EXCEPTION;
use cf_link::{Linked, LinkedRef, Slot, slots_of};
use vm_native::write;
use vm_state::{Effect, Frame, Heap, HeapEffect, StuckKind, Value, field_at, replace_top};

/// Puts what a field holds where its object was.
fn read(h: &Heap, f: &mut Frame, v: Option<Value>) -> HeapEffect
    requires pc { f.old.pc < 65535 }
    requires some { 0 < length f.old.stack.values }
    ensures { Acts (got h.now f.old (drop 1 f.old.stack.values) v) result h.now h.now f.old f.new }
{
    match v {
        None => HeapEffect::Stuck(StuckKind::WrongKind),
        Some(v) => match replace_top(f, v) {
            Effect::Done => HeapEffect::Done,
            Effect::Stuck(kind) => HeapEffect::Stuck(kind),
            _ => HeapEffect::Stuck(StuckKind::WrongKind),
        },
    }
}

/// Whether a slot is that of a field of a class.
fn is_slot_of(class: u32, slot: Option<&Slot>) -> bool
    ensures { result ≡ is_slot_of class (option_copied slot.entry) }
{
    match slot {
        None => false,
        Some(slot) => slot.class == class,
    }
}

/// Whether objects of a class have the field n of another.
pub fn has_field(k: &Linked, of: u32, class: u32, n: u32) -> bool
    ensures { result ≡ has_field k.now of class n }
{
    is_slot_of(class, slots_of(k.classes.as_slice(), of).get(n as usize))
}

fn gets_field(k: &Linked, h: &Heap, f: &mut Frame, class: u32, n: u32, v: Value) -> HeapEffect
    requires pc { f.old.pc < 65535 }
    requires some { 0 < length f.old.stack.values }
    ensures { Acts (gets_field k.now h.now f.old class n v (drop 1 f.old.stack.values)) result h.now h.now f.old f.new }
{
    match v {
        Value::Ref { at, class: of } => {
            if has_field(k, of, class, n) {
                read(h, f, field_at(h, at, n))
            } else {
                HeapEffect::Stuck(StuckKind::WrongKind)
            }
        }
        Value::Null => HeapEffect::Fail(NULL_POINTER_EXCEPTION),
        _ => HeapEffect::Stuck(StuckKind::WrongKind),
    }
}

fn field_named(k: &Linked, h: &Heap, f: &mut Frame, r: Option<LinkedRef>, v: Value) -> HeapEffect
    requires pc { f.old.pc < 65535 }
    requires some { 0 < length f.old.stack.values }
    ensures { Acts (field_named k.now h.now f.old r v (drop 1 f.old.stack.values)) result h.now h.now f.old f.new }
{
    match r {
        Some(LinkedRef::Field(class, n)) => gets_field(k, h, f, class, n, v),
        _ => HeapEffect::Stuck(StuckKind::WrongKind),
    }
}

/// Pushes a field of the object on top.
pub fn get_field(k: &Linked, h: &Heap, f: &mut Frame, r: Option<LinkedRef>) -> HeapEffect
    requires { f.old.pc < 65535 }
    ensures { Acts (get_field k.now h.now f.old r f.old.stack.values) result h.now h.now f.old f.new }
{
    match f.stack.top() {
        None => HeapEffect::Stuck(StuckKind::Stack),
        Some(v) => field_named(k, h, f, r, v),
    }
}

/// Whether a value is of the kind of a field.
pub fn fits_slot(slot: Option<&Slot>, v: Value) -> bool
    ensures { result ≡ fits_slot (option_copied slot.entry) v }
{
    match slot {
        None => false,
        Some(slot) => v.is_kind(slot.kind),
    }
}

fn puts_field(
    k: &Linked,
    h: &mut Heap,
    f: &mut Frame,
    class: u32,
    n: u32,
    v: Value,
    o: Value,
) -> HeapEffect
    requires { f.old.pc < 65535 }
    ensures { Acts (puts_field k.now h.old f.old class n v o (drop 2 f.old.stack.values)) result h.old h.new f.old f.new }
{
    match o {
        Value::Ref { at, class: of } => {
            if has_field(k, of, class, n) {
                write(h, f, at, n, v)
            } else {
                HeapEffect::Stuck(StuckKind::WrongKind)
            }
        }
        Value::Null => HeapEffect::Fail(NULL_POINTER_EXCEPTION),
        _ => HeapEffect::Stuck(StuckKind::WrongKind),
    }
}

fn field_put(
    k: &Linked,
    h: &mut Heap,
    f: &mut Frame,
    r: Option<LinkedRef>,
    v: Value,
    o: Value,
) -> HeapEffect
    requires { f.old.pc < 65535 }
    ensures { Acts (field_put k.now h.old f.old r v o (drop 2 f.old.stack.values)) result h.old h.new f.old f.new }
{
    match r {
        Some(LinkedRef::Field(class, n)) => {
            if fits_slot(slots_of(k.classes.as_slice(), class).get(n as usize), v) {
                puts_field(k, h, f, class, n, v, o)
            } else {
                HeapEffect::Stuck(StuckKind::WrongKind)
            }
        }
        _ => HeapEffect::Stuck(StuckKind::WrongKind),
    }
}

/// Stores the value on top into a field of the object under it.
pub fn put_field(k: &Linked, h: &mut Heap, f: &mut Frame, r: Option<LinkedRef>) -> HeapEffect
    requires { f.old.pc < 65535 }
    ensures { Acts (put_field k.now h.old f.old r f.old.stack.values) result h.old h.new f.old f.new }
{
    match f.stack.top_two() {
        None => HeapEffect::Stuck(StuckKind::Stack),
        Some((v, o)) => field_put(k, h, f, r, v, o),
    }
}
