//! What entries of constant pools resolve to (JVMS 5.1, 5.4.3).

ghost use Rattle.std.specs.Prelude.{◌≡◌, IfOk};
ghost use Rattle.cf_link.specs.Resolution.{resolved_field, resolved_method};
ghost use Rattle.cf_refs.specs.Entries.{text_number, found_by, reference_by, resolved};
ghost use Rattle.cf_set.specs.Indexes.{number_at};

use cf_form::{Const, entry};
use cf_link::{LinkedClass, LinkedRef, resolved_field, resolved_method};
use cf_set::{Names, number_at, text_at};
use std::alloc::AllocError;

/// What an entry of a pool resolves to; None exactly where it names a text, class or member that isn't there. A set of 2^32
/// classes or texts or more is answered as want of memory.
pub fn resolved(
    names: &Names,
    texts: &Names,
    classes: &[LinkedClass],
    pool: &[Const],
    constant: &Const,
) -> Result<Option<LinkedRef>, AllocError>
    ensures { IfOk result (λ found. found ≡ resolved names.now texts.now classes.now pool.now constant.now) }
{
    match constant {
        Const::Int(x) => Ok(Some(LinkedRef::Int(*x))),
        Const::Long(x) => Ok(Some(LinkedRef::Long(*x))),
        Const::Text(text) => {
            let number = text_number(texts, pool, *text)?;
            match number {
                Some(n) => Ok(Some(LinkedRef::Text(n))),
                None => Ok(None),
            }
        }
        Const::Class(name) => {
            let number = text_number(names, pool, *name)?;
            match number {
                Some(n) => Ok(Some(LinkedRef::Class(n))),
                None => Ok(None),
            }
        }
        Const::Field(class, member) => {
            let found = field_by(names, classes, pool, *class, *member)?;
            Ok(found)
        }
        Const::Method(class, member) => {
            let found = method_by(names, classes, pool, *class, *member)?;
            Ok(found)
        }
        Const::Interface(class, member) => {
            let found = method_by(names, classes, pool, *class, *member)?;
            Ok(found)
        }
        _ => Ok(Some(LinkedRef::Other)),
    }
}

// The number of the text at an index.
fn text_number(texts: &Names, pool: &[Const], index: u16) -> Result<Option<u32>, AllocError>
    ensures { IfOk result (λ number. number ≡ text_number texts.now pool.now index) }
{
    match text_at(pool, index) {
        Some(text) => narrowed(texts.number_of(text)),
        None => Ok(None),
    }
}

// The number of the class that an index names.
fn class_number(names: &Names, pool: &[Const], index: u16) -> Result<Option<u32>, AllocError>
    ensures { IfOk result (λ number. number ≡ number_at names.now pool.now index) }
{
    narrowed(number_at(names, pool, index))
}

/// A number in 32 bits.
pub(crate) fn narrowed(number: Option<usize>) -> Result<Option<u32>, AllocError>
    ensures { IfOk result (λ narrow. narrow ≡ number) }
{
    match number {
        Some(n) => {
            if n >= 1 << 32 {
                return Err(AllocError);
            }
            Ok(Some(n as u32))
        }
        None => Ok(None),
    }
}

// What a reference to a field resolves to.
fn field_by(
    names: &Names,
    classes: &[LinkedClass],
    pool: &[Const],
    class: u16,
    member: u16,
) -> Result<Option<LinkedRef>, AllocError>
    ensures { IfOk result (λ found. found ≡ reference_by (resolved_field classes.now) names.now pool.now class member) }
{
    let number = class_number(names, pool, class)?;
    match number {
        Some(number) => match entry(pool, member) {
            Some(Const::NameType(name, descriptor)) => {
                Ok(field_named(classes, number, pool, *name, *descriptor))
            }
            _ => Ok(None),
        },
        None => Ok(None),
    }
}

fn field_named(
    classes: &[LinkedClass],
    class: u32,
    pool: &[Const],
    name: u16,
    descriptor: u16,
) -> Option<LinkedRef>
    ensures { result ≡ found_by (resolved_field classes.now class) pool.now name descriptor }
{
    match text_at(pool, name) {
        Some(name) => match text_at(pool, descriptor) {
            Some(descriptor) => resolved_field(classes, class, name, descriptor),
            None => None,
        },
        None => None,
    }
}

// What a reference to a method resolves to.
fn method_by(
    names: &Names,
    classes: &[LinkedClass],
    pool: &[Const],
    class: u16,
    member: u16,
) -> Result<Option<LinkedRef>, AllocError>
    ensures { IfOk result (λ found. found ≡ reference_by (resolved_method classes.now) names.now pool.now class member) }
{
    let number = class_number(names, pool, class)?;
    match number {
        Some(number) => match entry(pool, member) {
            Some(Const::NameType(name, descriptor)) => {
                Ok(method_named(classes, number, pool, *name, *descriptor))
            }
            _ => Ok(None),
        },
        None => Ok(None),
    }
}

fn method_named(
    classes: &[LinkedClass],
    class: u32,
    pool: &[Const],
    name: u16,
    descriptor: u16,
) -> Option<LinkedRef>
    ensures { result ≡ found_by (resolved_method classes.now class) pool.now name descriptor }
{
    match text_at(pool, name) {
        Some(name) => match text_at(pool, descriptor) {
            Some(descriptor) => resolved_method(classes, class, name, descriptor),
            None => None,
        },
        None => None,
    }
}
