//! Whether a program begins with the prelude.

ghost use Rattle.std.specs.Prelude.{◌≡◌, ◌↔◌, IsTrue, IfOk, take, length};
ghost use Rattle.ty_prog.specs.Prelude.{prelude};
ghost use Rattle.ty_complete.specs.Complete.{BeginsWithPrelude};

use crate::NoMemory;
use std::alloc::Global;
use ty_prog::{Class, Program, prelude};
use ty_walk::same_classes;

/// Whether the first classes of a program are those of the prelude. Errors: want of memory.
pub fn begins_with_prelude(alloc: Global, p: &Program) -> Result<bool, NoMemory>
    ensures { IfOk result (λ answer. IsTrue answer ↔ BeginsWithPrelude p.now) }
{
    let Ok(wanted) = prelude(alloc) else {
        return Err(NoMemory);
    };
    Ok(begins_with(p.classes.as_slice(), wanted.as_slice()))
}

// Whether classes begin with these.
fn begins_with(classes: &[Class], wanted: &[Class]) -> bool
    ensures { IsTrue result ↔ (take (length wanted.now) classes.now ≡ wanted.now) }
{
    match classes.get(..wanted.len()) {
        Some(front) => same_classes(front, wanted),
        None => false,
    }
}
