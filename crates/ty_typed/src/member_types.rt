//! The types that the members of classes are declared with.

ghost use Rattle.std.specs.Prelude.{◌≡◌, [], ◌∷◌, option_map, option_copied, slice_get, MatchOption};
ghost use Rattle.ty_typed.specs.Members.{field_type, cell_type, method_at, result_of, super_method, types_of_fields};
ghost use Rattle.ty_conform.specs.Kinds.{is_trait, is_trait_kind, is_object, is_known};

use sqlite_items::at;
use ty_prog::{Class, Field, Kind, Method, Name, Program, Ty, super_find};

/// The type of a field of a class.
pub(crate) fn field_type(classes: &[Class], class: u32, field: u32) -> Option<Ty>
    ensures { result ≡ field_type classes.now class field }
{
    match at(classes, class as usize) {
        Some(class) => type_of_field(class.fields.as_slice(), field),
        None => None,
    }
}

// The type of a field, if it is there.
fn type_of_field(fields: &[Field], field: u32) -> Option<Ty>
    ensures { result ≡ option_map (λ f. f.ty) (slice_get fields.now field) }
{
    match at(fields, field as usize) {
        Some(field) => Some(field.ty),
        None => None,
    }
}

/// The type of a cell of a class.
pub(crate) fn cell_type(classes: &[Class], class: u32, cell: u32) -> Option<Ty>
    ensures { result ≡ cell_type classes.now class cell }
{
    match at(classes, class as usize) {
        Some(class) => match class.cells.get(cell as usize) {
            Some(cell) => Some(cell.ty),
            None => None,
        },
        None => None,
    }
}

/// A method of a class.
pub(crate) fn method_at<'a>(classes: &'a [Class], class: u32, method: u32) -> Option<&'a Method>
    ensures { option_copied result ≡ method_at classes.now class method }
{
    match at(classes, class as usize) {
        Some(class) => class.methods.get(method as usize),
        None => None,
    }
}

/// The type of what a method of a class gives.
pub(crate) fn result_at(classes: &[Class], class: u32, method: u32) -> Option<Ty>
    ensures { result ≡ result_of (method_at classes.now class method) }
{
    match method_at(classes, class, method) {
        Some(method) => Some(method.result),
        None => None,
    }
}

/// The first concrete method of a name behind a template in the linearisation of the class whose `this` it is.
pub(crate) fn super_method<'a>(
    p: &'a Program,
    this: Option<u32>,
    after: u32,
    name: &Name,
) -> Option<&'a Method>
    ensures { option_copied result ≡ super_method p.now this after name.now }
{
    match this {
        Some(class) => match super_find(p, class, after, name) {
            Some(found) => method_at(p.classes.as_slice(), found.0, found.1),
            None => None,
        },
        None => None,
    }
}

/// The type of what that method gives.
pub(crate) fn super_result(p: &Program, this: Option<u32>, after: u32, name: &Name) -> Option<Ty>
    ensures { result ≡ result_of (super_method p.now this after name.now) }
{
    match super_method(p, this, after, name) {
        Some(method) => Some(method.result),
        None => None,
    }
}

/// The first of the types of the fields with these numbers, and the numbers behind it.
pub(crate) fn next_type<'a>(fields: &[Field], list: &'a [u32]) -> Option<(Ty, &'a [u32])>
    ensures { MatchOption result (types_of_fields fields.now list.now ≡ [])
        (λ found. types_of_fields fields.now list.now ≡ found.0 ∷ types_of_fields fields.now found.1.now) }
{
    let mut rest = list;
    while let Some((field, more)) = rest.split_first() {
        if let Some(ty) = type_of_field(fields, *field) {
            return Some((ty, more));
        }
        rest = more;
    }
    None
}
