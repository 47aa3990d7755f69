//! Whether a program has a method to begin with.

ghost use Rattle.std.specs.Prelude.{◌≡◌, ◌↔◌, IsTrue, IfOk};
ghost use Rattle.ty_complete.specs.Complete.{is_entry_list, is_unit, is_entry, begins_with, HasMain};
ghost use Rattle.ty_conform.specs.Kinds.{is_object};

use crate::NoMemory;
use sqlite_items::at;
use std::alloc::Global;
use ty_conform::is_object;
use ty_prog::{Class, Name, Program, Ty, find};

/// Whether `main` is an object for which `find` gives a `main` of no parameter or of one of type Array, and of result
/// Unit. Errors: want of memory.
pub fn has_main(alloc: Global, p: &Program) -> Result<bool, NoMemory>
    ensures { IfOk result (λ answer. IsTrue answer ↔ HasMain p.now) }
{
    let name = Name::from_text(alloc, "main")?;
    Ok(begins_with(p, &name))
}

fn begins_with(p: &Program, name: &Name) -> bool
    ensures { result ≡ begins_with p.now name.now }
{
    let classes = p.classes.as_slice();
    if !is_object(classes, p.main) {
        return false;
    }
    match find(p, p.main, name) {
        Some(found) => is_entry(classes, found),
        None => false,
    }
}

fn is_entry(classes: &[Class], found: (u32, u32)) -> bool
    ensures { result ≡ is_entry classes.now found }
{
    match at(classes, found.0 as usize) {
        Some(class) => match class.methods.get(found.1 as usize) {
            Some(method) => is_entry_list(method.params.as_slice()) && is_unit(method.result),
            None => false,
        },
        None => false,
    }
}

/// Whether there is no parameter, or one of type Array.
pub(crate) fn is_entry_list(params: &[Ty]) -> bool
    ensures { result ≡ is_entry_list params.now }
{
    match params {
        [] => true,
        [only] => matches!(*only, Ty::Array),
        _ => false,
    }
}

fn is_unit(ty: Ty) -> bool
    ensures { result ≡ is_unit ty }
{
    matches!(ty, Ty::Unit)
}
