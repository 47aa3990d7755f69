//! Whether each class that has objects finds its methods. Plain, for tests on small programs.

ghost use Rattle.std.specs.Prelude.{◌≡◌, ◌↔◌, IsTrue, IfOk};
ghost use Rattle.ty_complete.specs.Complete.{HasObjects, FindsIts, FindsAll};
ghost use Rattle.ty_complete.specs.Finding.{FindsIn};

use crate::NoMemory;
use crate::methods_found::{all_found, supers_found};
use crate::objects::lacks_objects;
use sqlite_items::at;
use ty_prog::Program;

/// Whether in each class of which there may be objects each name of a method that isn't static is found, and what
/// `super` calls is found (SLS 5.1.3, 6.5). Errors: want of memory, for more than 2^32 classes.
pub fn finds_all(p: &Program) -> Result<bool, NoMemory>
    ensures { IfOk result (λ answer. IsTrue answer ↔ FindsAll p.now) }
{
    for number in 0..p.classes.len() {
        if number > u32::MAX as usize {
            return Err(NoMemory);
        }
        if !finds_where_it_must(p, number as u32) {
            return Ok(false);
        }
    }
    Ok(true)
}

// Whether a class that has objects finds its members.
fn finds_where_it_must(p: &Program, class: u32) -> bool
    ensures { IsTrue result ↔ (HasObjects p.now class → FindsIts p.now class) }
{
    if lacks_objects(p, class) {
        return true;
    }
    finds_its(p, class)
}

// Whether a class finds its members.
fn finds_its(p: &Program, class: u32) -> bool
    ensures { IsTrue result ↔ FindsIts p.now class }
{
    let classes = p.classes.as_slice();
    match at(classes, class as usize) {
        Some(found) => finds_in(p, class, found.linear.as_slice()),
        None => true,
    }
}

// Whether it finds those of the classes of a list.
fn finds_in(p: &Program, class: u32, linear: &[u32]) -> bool
    ensures { IsTrue result ↔ FindsIn p.now class linear.now }
{
    all_found(p, class, linear) && supers_found(p, class, linear)
}
