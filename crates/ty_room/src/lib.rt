//! Whether what a program becomes has room in class files: code of under 65,536 bytes (JVMS 4.7.3), a constant pool of
//! under 65,536 entries (JVMS 4.1).
#![tactic(auto)]

ghost use Rattle.std.specs.Prelude.{◌≡◌, ◌↔◌, ◌≤◌, IsTrue};
ghost use Rattle.std.specs.List.{All};
ghost use Rattle.ty_room.specs.Room.{ClassHasRoom, Room};

mod ahead;
mod bodies;
mod capping;
mod class_numbers;
mod combining;
mod laws;
mod limits;
mod numbers;
mod plain_forms;
mod pool;
mod size;
mod sizing;
mod taking;
mod trees;

use crate::bodies::{cells_have_room, constructor_has_room, methods_have_room};
use crate::pool::pool_has_room;
pub use ahead::{Ahead, ahead_of};
pub use class_numbers::{MOST_ENTRIES, MOST_WEIGHT};
pub use laws::{branches, copying, folding, forms, matching, replacing, sources, testing};
pub use limits::{at_limits, keeping_members, keeping_room, members, source_room};
pub use plain_forms::{assignments, constructor_parts, names_and_literals};
pub use size::Size;
pub use sizing::size_of;
use ty_prog::{Class, Program};

/// Whether a program has room when the first `k` lowerings are done: each constructor, initialiser and method is light
/// enough for its code, and each class brings few enough entries for its pool (JVMS 4.7.3, 4.1).
pub fn has_room(p: &Program, k: u32) -> bool
    ensures { IsTrue result ↔ Room k p.now }
{
    let classes = p.classes.as_slice();
    let ahead = ahead_of(k);
    classes
        .iter()
        .all(|class| class_has_room(ahead, classes, class))
}

// Whether a class has room.
fn class_has_room(ahead: Ahead, classes: &[Class], class: &Class) -> bool
    ensures { IsTrue result ↔ ClassHasRoom ahead classes.now class.now }
{
    constructor_has_room(ahead, class)
        && cells_have_room(ahead, class.cells.as_slice())
        && methods_have_room(ahead, class.methods.as_slice())
        && pool_has_room(ahead, classes, class)
}
