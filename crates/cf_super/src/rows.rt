//! The direct supertypes of each class, by numbers.

ghost use Rattle.std.specs.Prelude.{◌≡◌, [], ◌∷◌, ◌++◌, map, IfOk, OnOk};
ghost use Rattle.std.specs.List.{All};
ghost use Rattle.ty_linear.specs.Linear.{rows, AreClasses};
ghost use Rattle.cf_link.specs.Faults.{AreSupertypes, HasNone};
ghost use Rattle.cf_link.specs.OfFiles.{names_of};
ghost use Rattle.cf_link.specs.declared.fault.LinkKind.TheVariants.{NoClass};
ghost use Rattle.cf_set.specs.Indexes.{IsIndexed};
ghost use Rattle.cf_super.specs.Rows.{numbered_at, row_of, built_in_rows, rows_of};

use cf_form::{ClassFile, Const};
use cf_set::{Names, number_at};
use std::alloc::{AllocError, Global};

// The superclasses of the built-in classes but Object, by numbers.
const PARENTS: [u32; 27] = [
    0, 0, 0, 0, 4, 5, 6, 6, 6, 6, 6, 6, 12, 4, 14, 15, 15, 14, 18, 6, 0, 0, 0, 0, 0, 0, 0,
];

/// The direct supertypes of each class: its superclass, and then its superinterfaces.
pub fn supertypes(
    alloc: Global,
    names: &Names,
    files: &[ClassFile],
) -> Result<Vec<Vec<u32>>, AllocError>
    requires names { names.now ≡ names_of files.now }
    requires indexed { All IsIndexed files.now }
    requires there { HasNone files.now NoClass }
    ensures supertypes { IfOk result (λ table. AreSupertypes files.now (rows table.items)) }
    ensures classes { IfOk result (λ table. AreClasses table.items) }
{
    let table = rows_of(alloc, names, files)?;
    Ok(table)
}

fn rows_of(alloc: Global, names: &Names, files: &[ClassFile]) -> Result<Vec<Vec<u32>>, AllocError>
    ensures { IfOk result (λ table. rows table.items ≡ rows_of names.now files.now) }
{
    let mut table = built_in_rows(alloc)?;
    for file in files {
        let row = row_of(alloc, names, file)?;
        table.push(row)?;
    }
    Ok(table)
}

fn built_in_rows(alloc: Global) -> Result<Vec<Vec<u32>>, AllocError>
    ensures { IfOk result (λ table. rows table.items ≡ built_in_rows) }
{
    let mut table = Vec::new(alloc);
    table.push(Vec::new(alloc))?;
    put_parents(alloc, &PARENTS, &mut table)?;
    Ok(table)
}

// Puts a row with each class behind the others.
fn put_parents(alloc: Global, parents: &[u32], table: &mut Vec<Vec<u32>>) -> Result<(), AllocError>
    ensures { OnOk result (rows table.new.items ≡ rows table.old.items ++ map (λ parent. parent ∷ []) parents.now) }
{
    for parent in parents {
        let mut row = Vec::new(alloc);
        row.push(*parent)?;
        table.push(row)?;
    }
    Ok(())
}

fn row_of(alloc: Global, names: &Names, file: &ClassFile) -> Result<Vec<u32>, AllocError>
    ensures { IfOk result (λ row. row.items ≡ row_of names.now file.now) }
{
    let mut row = Vec::new(alloc);
    put_number(names, file.pool.as_slice(), file.parent, &mut row)?;
    for index in file.interfaces.as_slice() {
        put_number(names, file.pool.as_slice(), *index, &mut row)?;
    }
    Ok(row)
}

// Puts the number of the class at an index behind others. A set of 2^32 classes or more is answered as want of memory.
fn put_number(
    names: &Names,
    pool: &[Const],
    index: u16,
    row: &mut Vec<u32>,
) -> Result<(), AllocError>
    ensures { OnOk result (row.new.items ≡ row.old.items ++ numbered_at names.now pool.now index) }
{
    match number_at(names, pool, index) {
        Some(number) => {
            if number >= 1 << 32 {
                return Err(AllocError);
            }
            row.push(number as u32)?;
            Ok(())
        }
        None => Ok(()),
    }
}
