//! The second pass, its first rule: what the names of parents mean.

ghost use Rattle.std.specs.Prelude.{◌≡◌, [], Ok, IfOk, IfErr};
ghost use Rattle.ty_member.specs.Checked.{Gives, each};
ghost use Rattle.ty_member.specs.Parents as spec;

use crate::above::Above;
use crate::files::object_file;
use crate::known::Known;
use crate::stopped::{Stopped, broken};
use crate::words::is_word;
use sl_ast::{Ident, Parents, Template, TopDef, TypeKind, Unit};
use sl_base::{Name, NoMemory};
use sqlite_items::Items;
use std::alloc::{AllocError, Global};

/// The parents of each template, as they are written (SLS 5.1). UnknownType at the first that is no class, trait or
/// object, nor AnyRef or String.
pub fn parent_rows(
    alloc: Global,
    known: &Known,
    unit: &Unit,
) -> Result<Items<Items<Above>>, Stopped>
    ensures { Gives (spec.rows_of known.now unit.now) result }
{
    all_rows(alloc, known, unit.defs.as_slice())
}

// The parents of templates.
fn all_rows(alloc: Global, known: &Known, defs: &[TopDef]) -> Result<Items<Items<Above>>, Stopped>
    ensures { Gives (each (spec.with_row known.now) defs.now []) result }
{
    let mut rows = Items::new(alloc);
    for def in defs {
        rows = with_row(alloc, known, def, rows)?;
    }
    Ok(rows)
}

// The parents of one template behind those of others.
fn with_row(
    alloc: Global,
    known: &Known,
    def: &TopDef,
    rows: Items<Items<Above>>,
) -> Result<Items<Items<Above>>, Stopped>
    ensures { Gives (spec.with_row known.now def.now rows) result }
{
    let row = row_of(alloc, known, &template_of(def).parents)?;
    let mut rows = rows;
    rows.push(row)?;
    Ok(rows)
}

/// The template of a class, trait or object.
pub fn template_of(def: &TopDef) -> &Template
    ensures { result.now ≡ spec.template_of def.now }
{
    match def {
        TopDef::Class { template, .. }
        | TopDef::Trait { template, .. }
        | TopDef::Object { template, .. } => template,
    }
}

// The parents of a template.
#[tactic(auto, unfolding(crate::specs::Checked::each))]
fn row_of(alloc: Global, known: &Known, parents: &Option<Parents>) -> Result<Items<Above>, Stopped>
    ensures { Gives (spec.row_of known.now parents.now) result }
{
    match parents {
        None => Ok(Items::new(alloc)),
        Some(parents) => {
            let first = with_parent(alloc, known, &parents.first, Items::new(alloc))?;
            with_traits(alloc, known, parents.traits.as_slice(), first)
        }
    }
}

// Traits behind the first parent.
fn with_traits(
    alloc: Global,
    known: &Known,
    traits: &[Ident],
    row: Items<Above>,
) -> Result<Items<Above>, Stopped>
    ensures { Gives (each (spec.with_parent known.now) traits.now row) result }
{
    let mut row = row;
    for name in traits {
        row = with_parent(alloc, known, name, row)?;
    }
    Ok(row)
}

// One parent behind others.
fn with_parent(
    alloc: Global,
    known: &Known,
    name: &Ident,
    row: Items<Above>,
) -> Result<Items<Above>, Stopped>
    ensures { Gives (spec.with_parent known.now name.now row) result }
{
    match meant(alloc, known, &name.name)? {
        None => Err(broken(TypeKind::UnknownType, name.span)),
        Some(parent) => {
            let mut row = row;
            row.push(parent)?;
            Ok(row)
        }
    }
}

// What a parent's name means.
fn meant(alloc: Global, known: &Known, name: &Name) -> Result<Option<Above>, NoMemory>
    ensures { IfOk result (λ found. found ≡ spec.meant known.now name.now) }
{
    if is_word(name, "AnyRef") {
        Ok(Some(Above::AnyRef))
    } else if is_word(name, "String") {
        Ok(Some(Above::Text))
    } else {
        match class_or_object(alloc, known, name)? {
            None => Ok(None),
            Some(class) => Ok(Some(Above::Class(number(class)?))),
        }
    }
}

// The number of the class or trait of a name, or else of the object.
fn class_or_object(alloc: Global, known: &Known, name: &Name) -> Result<Option<usize>, AllocError>
    ensures { IfOk result (λ found. found ≡ spec.class_or_object known.now name.now) }
{
    match known.files.number_of(name) {
        Some(class) => Ok(Some(class)),
        None => {
            let file = object_file(alloc, name)?;
            Ok(known.files.number_of(&file))
        }
    }
}

// A number that has more than 32 bits is answered as want of memory.
fn number(n: usize) -> Result<u32, NoMemory>
    ensures { IfOk result (λ m. m ≡ n) }
{
    if n > u32::MAX as usize {
        return Err(NoMemory);
    }
    Ok(n as u32)
}
