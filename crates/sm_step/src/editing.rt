//! Changes of what threads share, made where it stands.

ghost use Rattle.std.specs.Prelude.{◌≡◌, OnOk, OnErr};
ghost use Rattle.sm_rule.specs.Edits.{with_field, with_cell, changed, edited};

use sl_base::NoMemory;
use sm_rule::Edit;
use sm_state::{Heap, Object, Once, Sequence, Value};

fn set_field(object: &mut Object, at: usize, value: Value)
    ensures { object.new ≡ with_field at value object.old }
{
    object.fields.set(at, value);
}

fn set_cell(object: &mut Object, at: usize, once: Once)
    ensures { object.new ≡ with_cell at once object.old }
{
    object.cells.set(at, once);
}

fn change_field(objects: &mut Sequence<Object>, object: u32, at: usize, value: Value)
    ensures { objects.new ≡ changed objects.old object (with_field at value) }
{
    if (object as usize) < objects.len() {
        set_field(objects.at_mut(object as usize), at, value);
    }
}

fn change_cell(objects: &mut Sequence<Object>, object: u32, at: usize, once: Once)
    ensures { objects.new ≡ changed objects.old object (with_cell at once) }
{
    if (object as usize) < objects.len() {
        set_cell(objects.at_mut(object as usize), at, once);
    }
}

/// Makes a change of what threads share. Without memory nothing changes.
pub fn make_edit(h: &mut Heap, edit: Edit) -> Result<(), NoMemory>
    ensures ok { OnOk result (h.new ≡ edited edit h.old) }
    ensures err { OnErr result (h.new ≡ h.old) }
{
    match edit {
        Edit::Nothing => {}
        Edit::Field { object, at, value } => change_field(&mut h.objects, object, at, value),
        Edit::Cell { object, at, once } => change_cell(&mut h.objects, object, at, once),
        Edit::Module { class, module } => h.modules.set(class as usize, module),
        Edit::AddObject(object) => h.objects.push(object)?,
        Edit::AddLatch => h.latches.push(false)?,
        Edit::OpenLatch(at) => h.latches.set(at as usize, true),
        Edit::AddEvent(event) => h.trace.push(event)?,
    }
    Ok(())
}
