//! Whether each local is set, on every way, before it is read.
#![tactic(auto)]

ghost use Rattle.std.specs.Prelude.{◌↔◌, IsTrue};
ghost use Rattle.ty_flow.specs.SetFirst.{LocalsAreSetFirst};

mod joining;
mod laws;
mod passage;
pub mod passing;
mod set_first;

pub use laws::{cases, conditions, ways};
pub use passage::Passage;
pub use set_first::are_set_first;
use set_first::classes_are_set_first;
use ty_prog::Program;

/// Whether no way through a program's constructors, initialisers and methods reads a local before it sets it.
pub fn locals_are_set_first(p: &Program) -> bool
    ensures { IsTrue result ↔ LocalsAreSetFirst p.now }
{
    classes_are_set_first(&p.classes)
}
