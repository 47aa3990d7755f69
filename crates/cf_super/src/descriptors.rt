//! Whether texts describe fields and methods, and entries of pools have descriptors of their forms (JVMS 4.3, 4.4.2, 4.4.6).

ghost use Rattle.std.specs.Prelude.{◌≡◌, IfOk};
ghost use Rattle.std.specs.Bool.{Decides};
ghost use Rattle.std.specs.List.{All};
ghost use Rattle.cf_form.specs.Pool.{entry, text_at};
ghost use Rattle.cf_link.specs.Faults.{IsFieldText, IsMethodText, IsDescriptor, IsDescribed, descriptor_of};

use cf_form::{Const, FieldInfo, MethodInfo, entry};
use cf_link::{field_kind, method_kinds};
use cf_set::text_at;
use std::alloc::{AllocError, Global};

// Whether the text at an index describes a field.
fn is_field_at(pool: &[Const], index: u16) -> bool
    ensures { Decides result (IsFieldText (text_at pool.now index)) }
{
    match text_at(pool, index) {
        Some(descriptor) => field_kind(descriptor).is_some(),
        None => false,
    }
}

// Whether the text at an index describes a method.
fn is_method_at(alloc: Global, pool: &[Const], index: u16) -> Result<bool, AllocError>
    ensures { IfOk result (λ is. Decides is (IsMethodText (text_at pool.now index))) }
{
    match text_at(pool, index) {
        Some(descriptor) => Ok(method_kinds(alloc, descriptor)?.is_some()),
        None => Ok(false),
    }
}

/// Whether each field has a descriptor of a field.
pub(crate) fn are_fields(pool: &[Const], fields: &[FieldInfo]) -> bool
    ensures { Decides result (All (λ f. IsFieldText (text_at pool.now f.descriptor)) fields.now) }
{
    for field in fields {
        if !is_field(pool, field) {
            return false;
        }
    }
    true
}

/// Whether each method has a descriptor of a method.
pub(crate) fn are_methods(
    alloc: Global,
    pool: &[Const],
    methods: &[MethodInfo],
) -> Result<bool, AllocError>
    ensures { IfOk result (λ are. Decides are (All (λ m. IsMethodText (text_at pool.now m.descriptor)) methods.now)) }
{
    for method in methods {
        if !is_method(alloc, pool, method)? {
            return Ok(false);
        }
    }
    Ok(true)
}

fn is_field(pool: &[Const], field: &FieldInfo) -> bool
    ensures { Decides result (IsFieldText (text_at pool.now field.now.descriptor)) }
{
    is_field_at(pool, field.descriptor)
}

fn is_method(alloc: Global, pool: &[Const], method: &MethodInfo) -> Result<bool, AllocError>
    ensures { IfOk result (λ is. Decides is (IsMethodText (text_at pool.now method.now.descriptor))) }
{
    is_method_at(alloc, pool, method.descriptor)
}

/// Whether each entry of a pool has a descriptor of its form.
pub(crate) fn are_described(alloc: Global, pool: &[Const]) -> Result<bool, AllocError>
    ensures { IfOk result (λ are. Decides are (All (IsDescribed pool.now) pool.now)) }
{
    for constant in pool {
        if !is_described(alloc, pool, constant)? {
            return Ok(false);
        }
    }
    Ok(true)
}

fn is_described(alloc: Global, pool: &[Const], constant: &Const) -> Result<bool, AllocError>
    ensures { IfOk result (λ is. Decides is (IsDescribed pool.now constant.now)) }
{
    match constant {
        Const::NameType(_, descriptor) => is_descriptor(alloc, pool, *descriptor),
        Const::Field(_, member) => Ok(is_of_field(pool, *member)),
        Const::Method(_, member) => Ok(is_of_method(alloc, pool, *member)?),
        Const::Interface(_, member) => Ok(is_of_method(alloc, pool, *member)?),
        _ => Ok(true),
    }
}

// Whether the text at an index describes a field or a method.
fn is_descriptor(alloc: Global, pool: &[Const], index: u16) -> Result<bool, AllocError>
    ensures { IfOk result (λ is. Decides is (IsDescriptor (text_at pool.now index))) }
{
    if is_field_at(pool, index) {
        Ok(true)
    } else {
        Ok(is_method_at(alloc, pool, index)?)
    }
}

// Whether an index names a name with a descriptor of a field.
fn is_of_field(pool: &[Const], member: u16) -> bool
    ensures { Decides result (IsFieldText (descriptor_of pool.now (entry pool.now member))) }
{
    match entry(pool, member) {
        Some(Const::NameType(_, descriptor)) => is_field_at(pool, *descriptor),
        _ => false,
    }
}

// Whether an index names a name with a descriptor of a method.
fn is_of_method(alloc: Global, pool: &[Const], member: u16) -> Result<bool, AllocError>
    ensures { IfOk result (λ is. Decides is (IsMethodText (descriptor_of pool.now (entry pool.now member)))) }
{
    match entry(pool, member) {
        Some(Const::NameType(_, descriptor)) => Ok(is_method_at(alloc, pool, *descriptor)?),
        _ => Ok(false),
    }
}
