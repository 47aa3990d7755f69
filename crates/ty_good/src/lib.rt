//! What makes a program of the language L good after so many of the lowerings, part by part. Plain programs decide each
//! part, for tests on small programs.
#![tactic(auto)]

ghost use Rattle.std.specs.Prelude.{◌↔◌, IfOk, IsTrue};
ghost use Rattle.ty_good.specs.Good.{GoodWith};

mod accessors;
mod each;
mod forms;
mod goodness;
mod lazy_gets;
mod lazy_members;
mod modules;
mod names;
mod numbers;
mod selection;
mod trait_fields;
mod traits;

pub use accessors::accessors_found;
pub use forms::has_forms;
use goodness::{accesses_fit, lazy_members_fit, members_fit, traits_fit};
pub use lazy_gets::lazy_gets_stand;
pub use lazy_members::{cells_read, lazy_members_found};
pub use modules::modules_set;
pub use names::names_made;
pub use numbers::numbers_in_range;
pub use selection::{selected, selects_found};
pub use sl_base::NoMemory;
use std::alloc::Global;
pub use trait_fields::trait_fields_stand;
pub use traits::{mixins_fit, mixins_of, supers_stand, traits_have_room, traits_lowered};
use ty_complete::is_complete;
use ty_prog::Program;
use ty_typed::{ClassLocals, is_typed_with};

/// Whether a program is good after k lowerings, k from 0 to 4, where the locals of its classes have these types. Errors:
/// want of memory.
pub fn is_good_with(
    alloc: Global,
    k: u32,
    p: &Program,
    locals: &[ClassLocals],
) -> Result<bool, NoMemory>
    ensures { IfOk result (λ answer. IsTrue answer ↔ GoodWith k p.now locals.now) }
{
    if !numbers_in_range(p) {
        return Ok(false);
    }
    if !has_forms(k, p) {
        return Ok(false);
    }
    if !traits_have_room(k, p) {
        return Ok(false);
    }
    if !is_typed_with(p, locals)? {
        return Ok(false);
    }
    if !is_complete(alloc, p)? {
        return Ok(false);
    }
    if !members_fit(alloc, k, p)? {
        return Ok(false);
    }
    if !lazy_members_fit(alloc, k, p)? {
        return Ok(false);
    }
    if !accesses_fit(alloc, k, p)? {
        return Ok(false);
    }
    traits_fit(alloc, k, p)
}
