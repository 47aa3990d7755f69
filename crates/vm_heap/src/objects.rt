//! New objects (JVMS 6.5: new).

ghost use Rattle.std.specs.Prelude.{◌≡◌, ◌<◌, IfOk, map};
ghost use Rattle.vm_native.specs.Acts.{Acts};
ghost use Rattle.vm_state.specs.Heaps.{default, blank};
ghost use Rattle.vm_state.specs.Shared.{make};

use cf_link::{Linked, Slot, slots_of};
use std::alloc::{AllocError, Global};
use vm_state::{Frame, Heap, HeapEffect, Object, Seq, StuckKind, Value, default_value};

fn defaults(alloc: Global, slots: &[Slot]) -> Result<Seq<Value>, AllocError>
    ensures { IfOk result (λ fields. fields ≡ map (λ slot. default slot.kind) slots.now) }
{
    let mut fields = Seq::with_room(alloc, slots.len())?;
    for slot in slots {
        fields.push(default_value(slot.kind))?;
    }
    Ok(fields)
}

pub(crate) fn blank(alloc: Global, k: &Linked, class: u32) -> Result<Object, AllocError>
    ensures { IfOk result (λ o. o ≡ blank k.now class) }
{
    Ok(Object {
        class,
        fields: defaults(alloc, slots_of(k.classes.as_slice(), class))?,
    })
}

/// Makes an object of a class that may be used, and pushes it.
pub fn make(alloc: Global, k: &Linked, h: &mut Heap, f: &mut Frame, class: u32) -> HeapEffect
    requires { f.old.pc < 65535 }
    ensures { Acts (make k.now h.old f.old class) result h.old h.new f.old f.new }
{
    if !f.stack.fits(1) {
        return HeapEffect::Stuck(StuckKind::Stack);
    }
    let at = h.objects.len();
    if at >= 4294967295 {
        return HeapEffect::Memory;
    }
    let Ok(made) = blank(alloc, k, class) else {
        return HeapEffect::Memory;
    };
    if h.objects.push(made).is_err() {
        return HeapEffect::Memory;
    }
    f.stack.push(Value::Ref {
        at: at as u32,
        class,
    });
    f.pc += 1;
    HeapEffect::Done
}
