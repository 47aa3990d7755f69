//! Questions on types.

use crate::answers::yes_or_no;
use crate::members::class_name;
use std::alloc::Global;
use ty_conform::{conforms, inherits, join};
use ty_prog::{Program, Ty};
use ty_text::{Parts, ProgramFault, Source};
use ty_typed::stands_for;

// `conforms TYPE TYPE`.
pub(crate) fn conforming(
    alloc: Global,
    source: &Source,
    parts: &mut Parts,
) -> Result<String, ProgramFault> {
    let lower = parts.ty(&source.names);
    let upper = parts.ty(&source.names);
    yes_or_no(alloc, conforms(&source.program, &lower, &upper))
}

// `stands TYPE TYPE`: whether a value of the first may stand where one of the second is wanted.
pub(crate) fn standing(
    alloc: Global,
    source: &Source,
    parts: &mut Parts,
) -> Result<String, ProgramFault> {
    let lower = parts.ty(&source.names);
    let upper = parts.ty(&source.names);
    yes_or_no(alloc, stands_for(&source.program, lower, upper))
}

// `inherits CLASS CLASS`.
pub(crate) fn inheriting(
    alloc: Global,
    source: &Source,
    parts: &mut Parts,
) -> Result<String, ProgramFault> {
    let lower = parts.class(&source.names);
    let upper = parts.class(&source.names);
    yes_or_no(
        alloc,
        inherits(source.program.classes.as_slice(), lower, upper),
    )
}

// `join TYPE TYPE`.
pub(crate) fn joined(
    alloc: Global,
    source: &Source,
    parts: &mut Parts,
) -> Result<String, ProgramFault> {
    let one = parts.ty(&source.names);
    let other = parts.ty(&source.names);
    let both = join(&source.program, &one, &other);
    Ok(String::from_str(alloc, type_name(&source.program, both))?)
}

fn type_name(program: &Program, ty: Ty) -> &str {
    match ty {
        Ty::Any => "Any",
        Ty::AnyRef => "AnyRef",
        Ty::Nothing => "Nothing",
        Ty::Null => "Null",
        Ty::Unit => "Unit",
        Ty::Boolean => "Boolean",
        Ty::Int => "Int",
        Ty::Long => "Long",
        Ty::Text => "String",
        Ty::Array => "Array",
        Ty::Class(class) => class_name(program, class),
    }
}
