//! Statics of a class that may be used (JVMS 6.5: getstatic, putstatic).

ghost use Rattle.std.specs.Prelude.{◌≡◌, ◌∷◌, ◌<◌, ◌≤◌, length, drop, slice_get, slice_set};
ghost use Rattle.std.specs.Option.{option_copied};
ghost use Rattle.vm_native.specs.Acts.{Acts};
ghost use Rattle.vm_state.specs.Heaps.{static_at};
ghost use Rattle.vm_state.specs.Shared.{got, get_static, fits_static, static_written, put_static};

use cf_link::{Linked, LinkedField, statics_of};
use vm_state::{Effect, Frame, Heap, HeapEffect, Seq, StuckKind, Value, pop_off, push};

/// What a static holds.
pub fn static_at(h: &Heap, class: u32, n: u32) -> Option<Value>
    ensures { result ≡ static_at h.now class n }
{
    match h.statics.get(class as usize) {
        Some(statics) => match statics.get(n as usize) {
            Some(v) => Some(*v),
            None => None,
        },
        None => None,
    }
}

/// Pushes what a static holds.
fn read(h: &Heap, f: &mut Frame, v: Option<Value>) -> HeapEffect
    requires { f.old.pc < 65535 }
    ensures { Acts (got h.now f.old f.old.stack.values v) result h.now h.now f.old f.new }
{
    match v {
        None => HeapEffect::Stuck(StuckKind::WrongKind),
        Some(v) => match push(f, v) {
            Effect::Done => HeapEffect::Done,
            Effect::Stuck(kind) => HeapEffect::Stuck(kind),
            _ => HeapEffect::Stuck(StuckKind::WrongKind),
        },
    }
}

/// Pushes a static.
pub fn get_static(h: &Heap, f: &mut Frame, class: u32, n: u32) -> HeapEffect
    requires { f.old.pc < 65535 }
    ensures { Acts (get_static h.now f.old class n) result h.now h.now f.old f.new }
{
    read(h, f, static_at(h, class, n))
}

/// Whether a value is of the kind of a static.
pub fn fits_static(field: Option<&LinkedField>, v: Value) -> bool
    ensures { result ≡ fits_static (option_copied field.entry) v }
{
    match field {
        None => false,
        Some(field) => v.is_kind(field.kind),
    }
}

fn set(statics: &mut Seq<Value>, n: u32, v: Value)
    requires { n < length statics.old }
    ensures { statics.new ≡ slice_set statics.old n v }
{
    *statics.at_mut(n as usize) = v;
}

fn write(h: &mut Heap, f: &mut Frame, class: u32, n: u32, v: Value) -> HeapEffect
    requires { f.old.pc < 65535 }
    ensures { Acts (static_written h.old f.old class n v (drop 1 f.old.stack.values) (slice_get h.old.statics class)) result h.old h.new f.old f.new }
{
    match h.statics.get(class as usize) {
        None => return HeapEffect::Stuck(StuckKind::WrongKind),
        Some(statics) => {
            if n as usize >= statics.len() {
                return HeapEffect::Stuck(StuckKind::WrongKind);
            }
        }
    }
    set(h.statics.at_mut(class as usize), n, v);
    pop_off(f, 1);
    HeapEffect::Done
}

/// Stores the value on top into a static.
pub fn put_static(k: &Linked, h: &mut Heap, f: &mut Frame, class: u32, n: u32) -> HeapEffect
    requires { f.old.pc < 65535 }
    ensures { Acts (put_static k.now h.old f.old class n f.old.stack.values) result h.old h.new f.old f.new }
{
    match f.stack.top() {
        None => HeapEffect::Stuck(StuckKind::Stack),
        Some(v) => {
            if fits_static(statics_of(k.classes.as_slice(), class).get(n as usize), v) {
                write(h, f, class, n, v)
            } else {
                HeapEffect::Stuck(StuckKind::WrongKind)
            }
        }
    }
}
