//! The method that a call on an object of a class runs, from the tables.

ghost use Rattle.std.specs.Prelude.{◌≡◌, ◌<◌, length, IsTrue};
ghost use Rattle.cf_link.specs.Classes.{conforms, methods_of};
ghost use Rattle.cf_link.specs.Selection.{chosen_at};
ghost use Rattle.cf_link.specs.TableSlots.{base_of, table_slots, faces_of, face_of, at_slot};

use crate::classes::is_interface;
use crate::linked::Linked;
use crate::table::{Face, Table};
use sqlite_items::at;

/// What a class selects for the method of a class or interface with this number (JVMS 5.4.6), by its class and its
/// number; None where it selects none, and for a static method. It takes no memory.
pub fn target(k: &Linked, class: u32, of: u32, number: u32) -> Option<(u32, u32)>
    requires conforms { IsTrue (conforms k.now.classes class of) }
    requires number { number < length (methods_of k.now.classes of) }
    ensures { result ≡ chosen_at k.now.classes class of number }
{
    let tables = k.tables.as_slice();
    if is_interface(k.classes.as_slice(), of) {
        at_slot(face_of(faces_of(tables, class), of), number as usize)
    } else {
        at_slot(
            table_slots(tables, class),
            base_of(tables, of) as usize + number as usize,
        )
    }
}

// Where the slots of a class's own methods begin.
fn base_of(tables: &[Table], class: u32) -> u32
    ensures { result ≡ base_of tables.now class }
{
    match at(tables, class as usize) {
        Some(table) => table.base,
        None => 0,
    }
}

// The slots of a class.
fn table_slots(tables: &[Table], class: u32) -> &[Option<(u32, u32)>]
    ensures { result.now ≡ table_slots tables.now class }
{
    match at(tables, class as usize) {
        Some(table) => table.slots.as_slice(),
        None => &[],
    }
}

// The interfaces of a class, with their slots.
fn faces_of(tables: &[Table], class: u32) -> &[Face]
    ensures { result.now ≡ faces_of tables.now class }
{
    match at(tables, class as usize) {
        Some(table) => table.faces.as_slice(),
        None => &[],
    }
}

// The slots of an interface; none where it isn't there.
fn face_of(faces: &[Face], of: u32) -> &[Option<(u32, u32)>]
    ensures { result.now ≡ face_of faces.now of }
{
    for face in faces {
        if face.of == of {
            return face.slots.as_slice();
        }
    }
    &[]
}

// What stands at a slot; nothing past the last one.
fn at_slot(slots: &[Option<(u32, u32)>], slot: usize) -> Option<(u32, u32)>
    ensures { result ≡ at_slot slots.now slot }
{
    match at(slots, slot) {
        Some(found) => *found,
        None => None,
    }
}
