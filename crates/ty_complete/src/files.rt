//! Whether the class files of a program differ. Plain, for tests on small programs: each class is compared with all
//! behind it.

ghost use Rattle.std.specs.Prelude.{◌≡◌, ◌↔◌, ◌≢◌, ◌++◌, IsTrue, IfOk, codes, map};
ghost use Rattle.std.specs.Char.{is_ascii};
ghost use Rattle.std.specs.List.{All, AllPairs, list_all};
ghost use Rattle.ty_complete.specs.Complete.{file, FilesDiffer};

use crate::NoMemory;
use crate::own_classes::own_classes;
use crate::plain_text::is_text;
use sqlite_items::Items;
use std::alloc::{AllocError, Global};
use ty_prog::{Class, Kind, Name, Program};

/// Whether no two classes of the program's own give class files of one name, and none gives one named `Main`. Errors:
/// want of memory.
pub fn files_differ(alloc: Global, p: &Program) -> Result<bool, NoMemory>
    ensures { IfOk result (λ answer. IsTrue answer ↔ FilesDiffer p.now) }
{
    let names = files(alloc, own_classes(p))?;
    Ok(all_apart(names.as_slice()) && none_is_main(names.as_slice()))
}

// The names of the files of classes.
fn files(alloc: Global, classes: &[Class]) -> Result<Items<Name>, AllocError>
    ensures { IfOk result (λ names. names ≡ map (λ c. file c.kind c.name) classes.now) }
{
    let mut names = Items::new(alloc);
    for class in classes {
        names.push(file(alloc, class)?)?;
    }
    Ok(names)
}

// The name of the class file of a class.
fn file(alloc: Global, class: &Class) -> Result<Name, AllocError>
    ensures { IfOk result (λ name. name ≡ file class.now.kind class.now.name) }
{
    match class.kind {
        Kind::Class | Kind::Abstract | Kind::Trait => class.name.copy(alloc),
        Kind::Object => longer(alloc, &class.name, "$"),
    }
}

/// A name with a text behind it. Errors: want of memory.
pub fn longer(alloc: Global, name: &Name, end: &str) -> Result<Name, AllocError>
    requires { IsTrue (list_all is_ascii end.now) }
    ensures { IfOk result (λ made. made ≡ name.now ++ end.now) }
{
    let mut text = String::from_str(alloc, name.as_str())?;
    text.push_str(end)?;
    Ok(Name::from_string(text))
}

// Whether no two names are one.
fn all_apart(names: &[Name]) -> bool
    ensures { IsTrue result ↔ AllPairs (λ one other. one ≢ other) names.now }
{
    for (i, name) in names.iter().enumerate() {
        if !is_none_of(name, &names[i + 1..]) {
            return false;
        }
    }
    true
}

// Whether a name is none of some others.
fn is_none_of(name: &Name, others: &[Name]) -> bool
    ensures { IsTrue result ↔ All (λ other. name.now ≢ other) others.now }
{
    others.iter().all(|other| *name != *other)
}

// Whether no name is `Main`.
fn none_is_main(names: &[Name]) -> bool
    ensures { IsTrue result ↔ All (λ name. name ≢ codes "Main") names.now }
{
    names.iter().all(|name| !is_main(name))
}

// Whether a name is `Main`.
fn is_main(name: &Name) -> bool
    ensures { IsTrue result ↔ (name.now ≡ codes "Main") }
{
    is_text(name, "Main")
}
