//! Fields that are set.

ghost use Rattle.std.specs.Prelude.{◌≡◌, ◌<◌, drop, length, slice_get};
ghost use Rattle.vm_native.specs.Acts.{Acts};
ghost use Rattle.vm_state.specs.Heaps.{with_field};
ghost use Rattle.vm_state.specs.Shared.{written};

use vm_state::{Frame, Heap, HeapEffect, Object, Value, write_field};

/// Sets a field of an object to the value on top, and takes that and the object off.
pub fn write(h: &mut Heap, f: &mut Frame, at: u32, n: u32, v: Value) -> HeapEffect
    requires { f.old.pc < 65535 }
    ensures { Acts (written h.old f.old at n v (drop 2 f.old.stack.values) (slice_get h.old.objects at)) result h.old h.new f.old f.new }
{
    write_field(h, f, at, n, v)
}

/// Sets a field of an object.
pub(crate) fn set_field(o: &mut Object, n: usize, v: Value)
    requires { n < length o.old.fields }
    ensures { o.new ≡ with_field o.old n v }
{
    *o.fields.at_mut(n) = v;
}
