//! The classes of a program so far.

ghost use Rattle.std.specs.Prelude.{◌≡◌, ◌++◌, map, IfOk, OnOk};
ghost use Rattle.ty_member.specs.Names.{number_in, with_names};
ghost use Rattle.ty_member.specs.Naming as spec;

use crate::files::object_file;
use crate::names::Names;
use crate::words::word_type;
use sl_base::{Name, NoMemory};
use sqlite_items::Items;
use std::alloc::{AllocError, Global};
use ty_prog::prelude_number::PRELUDE_LEN;
use ty_prog::{Class, Kind, prelude};

/// What stands of a class before its name.
#[derive(Clone, Copy, Debug, PartialEq, Eq)]
pub struct Sort {
    pub kind: Kind,
    pub is_case: bool,
    pub is_sealed: bool,
}

/// The classes so far, by their numbers, those of the prelude first: the names of their class files, and what stands of
/// each.
#[derive(Drop)]
pub struct Known {
    pub files: Names,
    pub sorts: Items<Sort>,
}

/// The prelude alone.
pub(crate) fn nothing_known(alloc: Global) -> Result<Known, NoMemory>
    ensures { IfOk result (λ known. known ≡ spec.nothing_known) }
{
    let classes = prelude(alloc)?;
    let mut files = Names::new(alloc);
    put_names(alloc, classes.as_slice(), &mut files)?;
    let mut sorts = Items::new(alloc);
    put_sorts(classes.as_slice(), &mut sorts)?;
    Ok(Known { files, sorts })
}

// Puts the names of classes behind others, each once.
fn put_names(alloc: Global, classes: &[Class], files: &mut Names) -> Result<(), AllocError>
    ensures { OnOk result (files.new ≡ with_names files.old (map (λ c. c.name) classes.now)) }
{
    for class in classes {
        files.add(alloc, class.name.as_str())?;
    }
    Ok(())
}

// Puts what stands of classes of the prelude behind others.
fn put_sorts(classes: &[Class], sorts: &mut Items<Sort>) -> Result<(), AllocError>
    ensures { OnOk result (sorts.new ≡ sorts.old ++ map spec.prelude_sort classes.now) }
{
    for class in classes {
        sorts.push(Sort {
            kind: class.kind,
            is_case: false,
            is_sealed: false,
        })?;
    }
    Ok(())
}

/// Whether a class or trait of the file so far has this name.
pub fn is_class(known: &Known, name: &Name) -> bool
    ensures { result ≡ spec.is_class known.now name.now }
{
    match known.files.number_of(name) {
        Some(number) => number >= PRELUDE_LEN as usize,
        None => false,
    }
}

/// Whether a case class of the file so far has this name.
pub fn is_case_class(known: &Known, name: &Name) -> bool
    ensures { result ≡ spec.is_case_class known.now name.now }
{
    match known.files.number_of(name) {
        Some(number) => match known.sorts.get(number) {
            Some(sort) => sort.is_case,
            None => false,
        },
        None => false,
    }
}

/// Whether an object of the file so far has this name.
pub fn is_object(alloc: Global, known: &Known, name: &Name) -> Result<bool, AllocError>
    ensures { IfOk result (λ answer. answer ≡ spec.is_object known.now name.now) }
{
    let file = object_file(alloc, name)?;
    Ok(known.files.number_of(&file).is_some())
}

/// Whether a name is that of a type or of a class of the prelude.
pub fn is_reserved(known: &Known, name: &Name) -> bool
    ensures { result ≡ spec.is_reserved known.now name.now }
{
    word_type(name).is_some() || is_first(known, name)
}

// Whether a name is that of a class of the prelude.
fn is_first(known: &Known, name: &Name) -> bool
    ensures { result ≡ spec.is_first (number_in known.now.files name.now) }
{
    match known.files.number_of(name) {
        Some(number) => number < PRELUDE_LEN as usize,
        None => false,
    }
}
