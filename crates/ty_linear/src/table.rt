//! Tables: a row for each class.

ghost use Rattle.std.specs.Prelude.{◌≡◌, [], length, replicate, IfOk};
ghost use Rattle.ty_linear.specs.Linear.{rows};

use std::alloc::{AllocError, Global};

// A table of empty rows.
pub(crate) fn empty_rows(alloc: Global, count: usize) -> Result<Vec<Vec<u32>>, AllocError>
    ensures rows { IfOk result (λ table. rows table.items ≡ replicate count []) }
    ensures count { IfOk result (λ table. length table.items ≡ count) }
{
    let mut table = Vec::new(alloc);
    for _ in 0..count {
        table.push(Vec::new(alloc))?;
    }
    Ok(table)
}
