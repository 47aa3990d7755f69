//! Whether classes carry their linearisations. Plain, for tests on small programs: each list is merged again from
//! those that the parents carry.

ghost use Rattle.std.specs.Prelude.{◌≡◌, ◌↔◌, ◌∷◌, IsTrue, IfOk, false, not, reverse};
ghost use Rattle.std.specs.List.{filter};
ghost use Rattle.ty_linear.specs.Linear.{is_in, ◌+>◌};
ghost use Rattle.ty_conform.specs.Carried.{HasLinearisations};
ghost use Rattle.ty_complete.specs.Merged.{carried, merged, IsCarried, AreCarried};

use crate::NoMemory;
use sqlite_items::{Items, at};
use std::alloc::{AllocError, Global};
use ty_linear::linearisations;
use ty_prog::{Class, Program};

/// Whether no class is its own ancestor, and each carries its linearisation (SLS 5.1.2). A parent's number that is no
/// class's counts as a class without parents. Errors: want of memory.
pub fn has_linearisations(alloc: Global, p: &Program) -> Result<bool, NoMemory>
    ensures { IfOk result (λ answer. IsTrue answer ↔ HasLinearisations p.now) }
{
    linearisations();
    Ok(all_carried(alloc, p.classes.as_slice())?)
}

// Whether all classes carry their linearisations.
fn all_carried(alloc: Global, classes: &[Class]) -> Result<bool, NoMemory>
    ensures { IfOk result (λ answer. IsTrue answer ↔ AreCarried classes.now) }
{
    for (number, class) in classes.iter().enumerate() {
        if !is_carried(alloc, classes, number, class)? {
            return Ok(false);
        }
    }
    Ok(true)
}

// Whether a class carries itself and then what is merged from its parents.
fn is_carried(
    alloc: Global,
    classes: &[Class],
    number: usize,
    class: &Class,
) -> Result<bool, NoMemory>
    ensures { IfOk result (λ answer. IsTrue answer ↔ IsCarried classes.now number class.now) }
{
    let above = merged(alloc, classes, class.parents.as_slice())?;
    Ok(is_list(number, class.linear.as_slice(), above.as_slice()))
}

// Whether a list is a number and then those above it, which lack it.
fn is_list(number: usize, list: &[u32], above: &[u32]) -> bool
    ensures { IsTrue result ↔ ((list.now ≡ number ∷ above.now) × (is_in above.now number ≡ false)) }
{
    match list.split_first() {
        Some((first, rest)) => {
            *first as usize == number && *rest == *above && !is_in(above, *first)
        }
        None => false,
    }
}

// Whether a class stands in a list.
fn is_in(classes: &[u32], class: u32) -> bool
    ensures { result ≡ is_in classes.now class }
{
    classes.iter().any(|other| class == *other)
}

// What is merged from the lists of the parents, of which the last one comes first.
fn merged(alloc: Global, classes: &[Class], parents: &[u32]) -> Result<Items<u32>, AllocError>
    ensures { IfOk result (λ list. list ≡ merged classes.now (reverse parents.now)) }
{
    let mut list = Items::new(alloc);
    for parent in parents {
        list = with_parent(alloc, classes, *parent, list)?;
    }
    Ok(list)
}

// What is merged, with the list of one more parent in front.
fn with_parent(
    alloc: Global,
    classes: &[Class],
    parent: u32,
    behind: Items<u32>,
) -> Result<Items<u32>, AllocError>
    ensures { IfOk result (λ list. list ≡ carried classes.now parent +> behind) }
{
    match at(classes, parent as usize) {
        Some(class) => joined(alloc, class.linear.as_slice(), behind),
        None => joined(alloc, &[parent], behind),
    }
}

// The classes of the first list that the second lacks, and then the second.
fn joined(alloc: Global, front: &[u32], behind: Items<u32>) -> Result<Items<u32>, AllocError>
    ensures { IfOk result (λ list. list ≡ front.now +> behind) }
{
    let mut list = lacking(alloc, front, behind.as_slice())?;
    list.append(behind)?;
    Ok(list)
}

// The classes of the first list that the second lacks.
fn lacking(alloc: Global, front: &[u32], behind: &[u32]) -> Result<Items<u32>, AllocError>
    ensures { IfOk result (λ list. list ≡ filter (λ class. not (is_in behind.now class)) front.now) }
{
    let mut list = Items::new(alloc);
    for class in front {
        if !is_in(behind, *class) {
            list.push(*class)?;
        }
    }
    Ok(list)
}
