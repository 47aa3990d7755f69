//! Whether the accessors of traits are found by the classes that have the traits.

ghost use Rattle.std.specs.Prelude.{◌≡◌, ◌↔◌, IsTrue, IfOk};
ghost use Rattle.std.specs.List.{list_all};
ghost use Rattle.ty_good.specs.Accessors.{is_accessor, finds_in, is_kept, keeps_accessors, class_keeps, AccessorsFound};

use crate::NoMemory;
use crate::each::{ClassRule, each_class};
use crate::trait_fields::is_access;
use sqlite_items::at;
use std::alloc::{AllocError, Global};
use ty_conform::{is_trait, is_trait_kind};
use ty_prog::{Class, Method, Program, find};

/// Whether, until the lowering of traits, each class that isn't a trait finds the getters and the setters of the traits of
/// its linearisation; k is from 0 to 4. Errors: want of memory, also for more than 2^32
/// classes.
pub fn accessors_found(alloc: Global, k: u32, p: &Program) -> Result<bool, NoMemory>
    ensures { IfOk result (λ answer. IsTrue answer ↔ AccessorsFound k p.now) }
{
    if k >= 2 {
        return Ok(true);
    }
    each_class(alloc, &Keeps { p }, p)
}

#[derive(Clone, Copy)]
struct Keeps<'a> {
    p: &'a Program,
}

impl ClassRule for Keeps<'_> {
    ghost use Rattle.std.specs.Prelude.{IsTrue};
    ghost use Rattle.ty_good.specs.Accessors.{class_keeps};

    ghost keeps = { λ rule number class. IsTrue (class_keeps rule.p.now number class) };

    fn keeps(&self, alloc: Global, number: u32, class: &Class) -> Result<bool, NoMemory> {
        Ok(class_keeps(alloc, self.p, number, class)?)
    }
}

fn class_keeps(alloc: Global, p: &Program, number: u32, class: &Class) -> Result<bool, AllocError>
    ensures { IfOk result (λ answer. answer ≡ class_keeps p.now number class.now) }
{
    if is_trait_kind(class.kind) {
        return Ok(true);
    }
    keeps_all(alloc, p, number, class.linear.as_slice())
}

// Whether a class keeps what reads and stores the fields of each trait of a list.
fn keeps_all(alloc: Global, p: &Program, class: u32, linear: &[u32]) -> Result<bool, AllocError>
    ensures { IfOk result (λ answer. answer ≡ list_all (keeps_accessors p.now class) linear.now) }
{
    for above in linear {
        if !keeps_accessors(alloc, p, class, *above)? {
            return Ok(false);
        }
    }
    Ok(true)
}

fn keeps_accessors(alloc: Global, p: &Program, class: u32, number: u32) -> Result<bool, AllocError>
    ensures { IfOk result (λ answer. answer ≡ keeps_accessors p.now class number) }
{
    if !is_trait(p.classes.as_slice(), number) {
        return Ok(true);
    }
    match at(p.classes.as_slice(), number as usize) {
        Some(above) => keeps_each(alloc, p, class, number, above, above.methods.as_slice()),
        None => Ok(true),
    }
}

// Whether it keeps each of these methods.
fn keeps_each(
    alloc: Global,
    p: &Program,
    class: u32,
    number: u32,
    above: &Class,
    methods: &[Method],
) -> Result<bool, AllocError>
    ensures { IfOk result (λ answer. answer ≡ list_all (is_kept p.now class number above.now) methods.now) }
{
    for method in methods {
        if !is_kept(alloc, p, class, number, above, method)? {
            return Ok(false);
        }
    }
    Ok(true)
}

fn is_kept(
    alloc: Global,
    p: &Program,
    class: u32,
    number: u32,
    above: &Class,
    m: &Method,
) -> Result<bool, AllocError>
    ensures { IfOk result (λ answer. answer ≡ is_kept p.now class number above.now m.now) }
{
    let accesses = is_accessor(alloc, number, above, m)?;
    Ok(!accesses || finds_in(p, class, number, m))
}

// Whether a method reads or stores the field of its name.
fn is_accessor(alloc: Global, number: u32, class: &Class, m: &Method) -> Result<bool, AllocError>
    ensures { IfOk result (λ answer. answer ≡ is_accessor number class.now m.now) }
{
    match &m.body {
        Some(body) => is_access(alloc, number, class.fields.as_slice(), &m.name, body),
        None => Ok(false),
    }
}

/// Whether a class finds a method of this name in another class.
pub(crate) fn finds_in(p: &Program, class: u32, above: u32, m: &Method) -> bool
    ensures { result ≡ finds_in p.now class above m.now }
{
    match find(p, class, &m.name) {
        Some(found) => found.0 == above,
        None => false,
    }
}
