//! Whether the classes of files are of the right shape.

ghost use Rattle.std.specs.Prelude.{◌≡◌, IfOk, MatchOption, true, false};
ghost use Rattle.std.specs.Bool.{Decides};
ghost use Rattle.std.specs.List.{All};
ghost use Rattle.cf_link.specs.Classes.{is_interface_access};
ghost use Rattle.cf_link.specs.Faults.{interface_at, IsInterfaceAt, IsShaped, HasNone};
ghost use Rattle.cf_link.specs.OfFiles.{names_of};
ghost use Rattle.cf_link.specs.declared.fault.LinkKind.TheVariants.{Twice, Shape};
ghost use Rattle.cf_super.specs.First.{IsFirstShape};

use crate::descriptors::{are_described, are_fields, are_methods};
use cf_form::ClassFile;
use cf_link::built_in::{BUILT_INS, RUNNABLE};
use cf_set::{Names, number_at};
use sqlite_items::at;
use std::alloc::{AllocError, Global};

/// The number of the first file whose class has an interface as superclass, another class as superinterface, or a malformed
/// descriptor or one that isn't of its entry's form; None exactly where there is none.
pub fn first_unshaped(
    alloc: Global,
    names: &Names,
    files: &[ClassFile],
) -> Result<Option<usize>, AllocError>
    requires names { names.now ≡ names_of files.now }
    requires different { HasNone files.now Twice }
    ensures { IfOk result (λ found. MatchOption found (HasNone files.now Shape) (IsFirstShape files.now)) }
{
    for i in 0..files.len() {
        if !is_shaped(alloc, names, files, &files[i])? {
            return Ok(Some(i));
        }
    }
    Ok(None)
}

fn is_shaped(
    alloc: Global,
    names: &Names,
    files: &[ClassFile],
    file: &ClassFile,
) -> Result<bool, AllocError>
    requires names { names.now ≡ names_of files.now }
    requires different { HasNone files.now Twice }
    ensures { IfOk result (λ is. Decides is (IsShaped files.now file.now)) }
{
    let pool = file.pool.as_slice();
    if !is_at(names, files, file, file.parent, false) || !are_interfaces(names, files, file) {
        return Ok(false);
    }
    if !are_fields(pool, file.fields.as_slice()) {
        return Ok(false);
    }
    if !are_methods(alloc, pool, file.methods.as_slice())? {
        return Ok(false);
    }
    Ok(are_described(alloc, pool)?)
}

// Whether each superinterface of a file's class is an interface.
fn are_interfaces(names: &Names, files: &[ClassFile], file: &ClassFile) -> bool
    requires names { names.now ≡ names_of files.now }
    requires different { HasNone files.now Twice }
    ensures { Decides result (All (IsInterfaceAt files.now true file.now) file.now.interfaces) }
{
    for index in file.interfaces.as_slice() {
        if !is_at(names, files, file, *index, true) {
            return false;
        }
    }
    true
}

// Whether the class at an index is an interface, or isn't.
fn is_at(names: &Names, files: &[ClassFile], file: &ClassFile, index: u16, is: bool) -> bool
    requires names { names.now ≡ names_of files.now }
    requires different { HasNone files.now Twice }
    ensures { Decides result (IsInterfaceAt files.now is file.now index) }
{
    match number_at(names, file.pool.as_slice(), index) {
        Some(number) => {
            if is {
                interface_at(files, number)
            } else {
                !interface_at(files, number)
            }
        }
        None => true,
    }
}

// Whether the class of this number is an interface.
fn interface_at(files: &[ClassFile], number: usize) -> bool
    ensures { result ≡ interface_at files.now number }
{
    if number < BUILT_INS as usize {
        return number == RUNNABLE as usize;
    }
    match at(files, number - BUILT_INS as usize) {
        Some(file) => is_interface_access(file.access),
        None => false,
    }
}

// Whether ACC_INTERFACE is set (JVMS 4.1).
fn is_interface_access(access: u16) -> bool
    ensures { result ≡ is_interface_access access }
{
    access & 0x0200 != 0
}
