//! Patterns, cases and handlers from the parts of their forms.

use crate::head::Shape;
use crate::names::Names;
use crate::parts::Parts;
use crate::program_fault::ProgramFault;
use sqlite_items::Boxed;
use std::alloc::Global;
use ty_prog::{Case, Catch, Pattern};

pub(crate) fn pattern_of(
    alloc: Global,
    form: &mut Parts,
    names: &Names,
    shape: Shape,
) -> Result<Pattern, ProgramFault> {
    Ok(match shape {
        Shape::Any => Pattern::Any,
        Shape::Bind => Pattern::Bind(form.number(), Boxed::new(alloc, form.pattern())?),
        Shape::OfType => Pattern::OfType(form.ty(names)),
        Shape::Literal => Pattern::Literal(form.boxed()?),
        Shape::Object => Pattern::Object(form.class(names)),
        Shape::Make => {
            let class = form.class(names);
            let parts = form.patterns_left();
            Pattern::Make { class, parts }
        }
        Shape::Either => Pattern::Either(form.patterns_left()),
    })
}

pub(crate) fn case_of(form: &mut Parts) -> Case {
    let pattern = form.pattern();
    let guard = form.aside.take();
    let body = form.expr();
    Case {
        pattern,
        guard,
        body,
    }
}

pub(crate) fn catch_of(form: &mut Parts) -> Result<Catch, ProgramFault> {
    let body = form.boxed()?;
    let local = form.number();
    Ok(Catch::Any { local, body })
}
