//! Questions on the values of expressions.

use crate::answers::yes_or_no;
use std::alloc::Global;
use ty_text::{Parts, ProgramFault, Source};
use ty_typed::{Scope, ValueKind, expr_fits, value_kind};

// `fits CLASS TYPE (locals TYPE..) EXPRESSION`: whether its values may stand where one of the type is wanted.
pub(crate) fn fitting(
    alloc: Global,
    source: &Source,
    parts: &mut Parts,
) -> Result<String, ProgramFault> {
    let class = parts.class(&source.names);
    let wanted = parts.ty(&source.names);
    let locals = parts.locals_left();
    let e = parts.expr();
    let scope = Scope {
        program: &source.program,
        this: Some(class),
        locals: locals.as_slice(),
    };
    yes_or_no(alloc, expr_fits(scope, &e, wanted))
}

// `kind CLASS (locals TYPE..) EXPRESSION`: of which kind its values are.
pub(crate) fn kind(
    alloc: Global,
    source: &Source,
    parts: &mut Parts,
) -> Result<String, ProgramFault> {
    let class = parts.class(&source.names);
    let locals = parts.locals_left();
    let e = parts.expr();
    let scope = Scope {
        program: &source.program,
        this: Some(class),
        locals: locals.as_slice(),
    };
    Ok(String::from_str(alloc, kind_name(value_kind(scope, &e)))?)
}

fn kind_name(kind: Option<ValueKind>) -> &'static str {
    match kind {
        None => "several",
        Some(ValueKind::Never) => "never",
        Some(ValueKind::Reference) => "reference",
        Some(ValueKind::Unit) => "unit",
        Some(ValueKind::Boolean) => "boolean",
        Some(ValueKind::Int) => "int",
        Some(ValueKind::Long) => "long",
        Some(ValueKind::Array) => "array",
    }
}
