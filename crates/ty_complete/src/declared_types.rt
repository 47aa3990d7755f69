//! Whether members are declared with types that they may have.

ghost use Rattle.std.specs.Prelude.{◌≡◌, ◌↔◌, ◌&&◌, IsTrue, IfOk, take, drop};
ghost use Rattle.std.specs.List.{list_all};
ghost use Rattle.ty_complete.specs.Complete.{is_declared, is_entry_list, is_main_name, is_static_main_name, params_declared, method_declared, types_declared, TypesAreDeclared};

use crate::NoMemory;
use crate::entry::is_entry_list;
use crate::word::{Word, words};
use std::alloc::{AllocError, Global};
use ty_prog::{Cell, Class, Field, Method, Program, Ty};

/// Whether no field, cell, parameter or result is of type Nothing, or of type Array but for the parameter of `main`.
/// Errors: want of memory.
pub fn types_are_declared(alloc: Global, p: &Program) -> Result<bool, NoMemory>
    ensures { IfOk result (λ answer. IsTrue answer ↔ TypesAreDeclared p.now) }
{
    Ok(all_types_declared(alloc, p.classes.as_slice())?)
}

// Whether all types that some classes declare may be declared.
fn all_types_declared(alloc: Global, classes: &[Class]) -> Result<bool, AllocError>
    ensures { IfOk result (λ answer. answer ≡ list_all types_declared classes.now) }
{
    for class in classes {
        if !types_declared(alloc, class)? {
            return Ok(false);
        }
    }
    Ok(true)
}

fn types_declared(alloc: Global, class: &Class) -> Result<bool, AllocError>
    ensures { IfOk result (λ answer. answer ≡ types_declared class.now) }
{
    if !(fields_declared(class.fields.as_slice()) && cells_declared(class.cells.as_slice())) {
        return Ok(false);
    }
    methods_declared(alloc, class.methods.as_slice())
}

// Whether the types of fields may.
fn fields_declared(fields: &[Field]) -> bool
    ensures { result ≡ list_all (λ f. is_declared f.ty) fields.now }
{
    fields.iter().all(|field| is_declared(field.ty))
}

// Whether the types of lazy members may.
fn cells_declared(cells: &[Cell]) -> bool
    ensures { result ≡ list_all (λ c. is_declared c.ty) cells.now }
{
    cells.iter().all(|cell| is_declared(cell.ty))
}

// Whether the types of methods may.
fn methods_declared(alloc: Global, methods: &[Method]) -> Result<bool, AllocError>
    ensures { IfOk result (λ answer. answer ≡ list_all method_declared methods.now) }
{
    for method in methods {
        if !method_declared(alloc, method)? {
            return Ok(false);
        }
    }
    Ok(true)
}

fn method_declared(alloc: Global, method: &Method) -> Result<bool, AllocError>
    ensures { IfOk result (λ answer. answer ≡ method_declared method.now) }
{
    let name = words(alloc, &method.name)?;
    Ok(params_declared(name.as_slice(), method.params.as_slice()) && is_declared(method.result))
}

fn params_declared(name: &[Word], params: &[Ty]) -> bool
    ensures { result ≡ params_declared name.now params.now }
{
    all_declared(params)
        || (is_main_name(name) && is_entry_list(params))
        || (is_static_main_name(name) && are_behind_object(params))
}

// Whether the parameters are an object's, and behind it those of an entry.
fn are_behind_object(params: &[Ty]) -> bool
    ensures { result ≡ (list_all is_declared (take 1 params.now) && is_entry_list (drop 1 params.now)) }
{
    match params {
        [] => true,
        [object, rest @ ..] => is_declared(*object) && is_entry_list(rest),
    }
}

// Whether some types may.
fn all_declared(types: &[Ty]) -> bool
    ensures { result ≡ list_all is_declared types.now }
{
    types.iter().all(|ty| is_declared(*ty))
}

// Whether a member may be declared with a type.
fn is_declared(ty: Ty) -> bool
    ensures { result ≡ is_declared ty }
{
    !matches!(ty, Ty::Nothing | Ty::Array)
}

// Whether a name is `main`, or the super accessor of it.
fn is_main_name(name: &[Word]) -> bool
    ensures { result ≡ is_main_name name.now }
{
    match name {
        [only] => matches!(*only, Word::Main),
        [_, gap, above, last] => {
            matches!(*gap, Word::Empty)
                && matches!(*above, Word::Super)
                && matches!(*last, Word::Main)
        }
        _ => false,
    }
}

fn is_static_main_name(name: &[Word]) -> bool
    ensures { result ≡ is_static_main_name name.now }
{
    match name {
        [first, last] => matches!(*first, Word::Main) && matches!(*last, Word::Empty),
        _ => false,
    }
}
