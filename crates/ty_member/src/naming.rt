//! The first pass: names of templates.

ghost use Rattle.std.specs.Prelude.{◌≡◌, IfOk};
ghost use Rattle.ty_member.specs.Checked.{Gives, each};
ghost use Rattle.ty_member.specs.Naming as spec;

use crate::files::object_file;
use crate::known::{Known, Sort, is_case_class, is_class, is_object, is_reserved, nothing_known};
use crate::modifiers::{ClassWords, class_words};
use crate::stopped::{Stopped, broken};
use crate::words::is_word;
use sl_ast::{Ident, TopDef, TypeKind, Unit};
use sl_base::Name;
use sl_text::Span;
use std::alloc::{AllocError, Global};
use ty_prog::Kind;
use ty_prog::prelude_number::PRELUDE_LEN;

/// The most templates that a file may have.
pub const MOST_TEMPLATES: usize = 4096;

/// The names of a file's templates (SLS 5), in the text's order, of each its modifiers before its name. Double: a modifier
/// that stands again, a second class or trait of a name, a second object, a case class and an object; Reserved: the name
/// of a type or of a class of the prelude, and `Main` of a class or trait; TooMany: a template past the 4,096th.
pub fn templates(alloc: Global, unit: &Unit) -> Result<Known, Stopped>
    ensures { Gives (spec.templates unit.now) result }
{
    let known = nothing_known(alloc)?;
    all_named(alloc, unit.defs.as_slice(), known)
}

// All templates behind others.
fn all_named(alloc: Global, defs: &[TopDef], known: Known) -> Result<Known, Stopped>
    ensures { Gives (each spec.template defs.now known) result }
{
    let mut known = known;
    for def in defs {
        known = template(alloc, def, known)?;
    }
    Ok(known)
}

// One template more.
fn template(alloc: Global, def: &TopDef, known: Known) -> Result<Known, Stopped>
    ensures { Gives (spec.template def.now known) result }
{
    match def {
        TopDef::Class {
            modifiers,
            is_case,
            name,
            ..
        } => {
            let words = class_words(modifiers.as_slice())?;
            class_named(alloc, class_sort(words, *is_case), name, known)
        }
        TopDef::Trait {
            is_sealed,
            name,
            ..
        } => class_named(alloc, trait_sort(*is_sealed), name, known),
        TopDef::Object { name, .. } => object_named(alloc, name, known),
    }
}

// What stands of a class with these modifiers.
fn class_sort(words: ClassWords, is_case: bool) -> Sort
    ensures { result ≡ spec.class_sort words is_case }
{
    let kind = if words.is_abstract {
        Kind::Abstract
    } else {
        Kind::Class
    };
    Sort {
        kind,
        is_case,
        is_sealed: words.is_sealed,
    }
}

// What stands of a trait.
fn trait_sort(is_sealed: bool) -> Sort
    ensures { result ≡ spec.trait_sort is_sealed }
{
    Sort {
        kind: Kind::Trait,
        is_case: false,
        is_sealed,
    }
}

// A class or trait more.
fn class_named(alloc: Global, sort: Sort, name: &Ident, known: Known) -> Result<Known, Stopped>
    ensures { Gives (spec.class_named sort name.now known) result }
{
    class_rules(alloc, sort.is_case, name, &known)?;
    Ok(with_class(alloc, &name.name, sort, known)?)
}

// A class with this class file behind others.
fn with_class(alloc: Global, file: &Name, sort: Sort, known: Known) -> Result<Known, AllocError>
    ensures { IfOk result (λ more. more ≡ spec.with_class file.now sort known) }
{
    let Known {
        mut files,
        mut sorts,
    } = known;
    files.add(alloc, file.as_str())?;
    sorts.push(sort)?;
    Ok(Known { files, sorts })
}

// The rules at the name of a class or trait.
fn class_rules(alloc: Global, is_case: bool, name: &Ident, known: &Known) -> Result<(), Stopped>
    ensures { Gives (spec.class_rules is_case name.now known.now) result }
{
    let has_object = is_object(alloc, known, &name.name)?;
    let is_double = is_class(known, &name.name) || is_case && has_object;
    let is_reserved = is_reserved(known, &name.name) || is_word(&name.name, "Main");
    name_rules(is_double, is_reserved, known.files.len(), name.span)
}

// An object more.
fn object_named(alloc: Global, name: &Ident, known: Known) -> Result<Known, Stopped>
    ensures { Gives (spec.object_named name.now known) result }
{
    object_rules(alloc, name, &known)?;
    let file = object_file(alloc, &name.name)?;
    Ok(with_class(alloc, &file, object_sort(), known)?)
}

// What stands of an object.
fn object_sort() -> Sort
    ensures { result ≡ spec.object_sort }
{
    Sort {
        kind: Kind::Object,
        is_case: false,
        is_sealed: false,
    }
}

// The rules at the name of an object.
fn object_rules(alloc: Global, name: &Ident, known: &Known) -> Result<(), Stopped>
    ensures { Gives (spec.object_rules name.now known.now) result }
{
    let is_double = is_object(alloc, known, &name.name)? || is_case_class(known, &name.name);
    let is_reserved = is_reserved(known, &name.name);
    name_rules(is_double, is_reserved, known.files.len(), name.span)
}

// The rules at a name, behind so many classes.
fn name_rules(is_double: bool, is_reserved: bool, count: usize, at: Span) -> Result<(), Stopped>
    ensures { Gives (spec.name_rules is_double is_reserved count at) result }
{
    if is_double {
        Err(broken(TypeKind::Double, at))
    } else if is_reserved {
        Err(broken(TypeKind::Reserved, at))
    } else if count < PRELUDE_LEN as usize + MOST_TEMPLATES {
        Ok(())
    } else {
        Err(broken(TypeKind::TooMany, at))
    }
}
