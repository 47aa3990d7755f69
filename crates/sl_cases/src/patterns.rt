//! Patterns in outlines.

use crate::leaves::{name, write_literal, write_type};
use crate::outline::{Job, Outline};
use sl_ast::{Case, Pat, PatS, Pattern, Wildcard};
use std::alloc::AllocError;

/// `(case PATTERN (if GUARD) STATEMENT ..)`.
pub(crate) fn write_case<'a>(out: &mut Outline<'a>, case: &'a Case) -> Result<(), AllocError> {
    out.open("case")?;
    out.put(Job::Close)?;
    for stat in case.body.stats.as_slice().iter().rev() {
        out.put(Job::Stat(stat))?;
    }
    if let Some(guard) = &case.guard {
        out.put(Job::Close)?;
        out.put(Job::Infix(guard.get()))?;
        out.put(Job::Open("if"))?;
    }
    out.put(Job::Pattern(&case.pattern))
}

/// A pattern, or `(or PATTERN ..)`.
pub(crate) fn write_pattern<'a>(out: &mut Outline<'a>, of: &'a Pattern) -> Result<(), AllocError> {
    if of.rest.as_slice().is_empty() {
        return out.put(Job::Pat(&of.first));
    }
    out.open("or")?;
    out.put(Job::Close)?;
    for pat in of.rest.as_slice().iter().rev() {
        out.put(Job::Pat(pat))?;
    }
    out.put(Job::Pat(&of.first))
}

/// `(typed NAME : TYPE)`, `(as NAME PATTERN)`, or a simple pattern.
pub(crate) fn write_pat<'a>(out: &mut Outline<'a>, pat: &'a Pat) -> Result<(), AllocError> {
    match pat {
        Pat::Typed { name, ty, .. } => {
            out.open("typed")?;
            match name {
                Wildcard::Id(ident) => out.word(ident.name.as_str())?,
                Wildcard::Any(_) => out.word("_")?,
            }
            write_type(out, ty)?;
            out.close()
        }
        Pat::Named { name, of, .. } => {
            out.open("as")?;
            out.word(name.name.as_str())?;
            out.put(Job::Close)?;
            out.put(Job::PatS(of))
        }
        Pat::Simple(of) => out.put(Job::PatS(of)),
    }
}

/// `_`, a literal, a name, `(of NAME PATTERN ..)`, `(parens PATTERN)`.
pub(crate) fn write_simple_pattern<'a>(
    out: &mut Outline<'a>,
    of: &'a PatS,
) -> Result<(), AllocError> {
    match of {
        PatS::Any(_) => out.word("_"),
        PatS::Literal { minus, literal, .. } => {
            if *minus {
                out.word("-")?;
            }
            write_literal(out, literal)
        }
        PatS::Id {
            name: ident,
            parts: None,
            ..
        } => out.put(name(ident)),
        PatS::Id {
            name: ident,
            parts: Some(parts),
            ..
        } => {
            out.open("of")?;
            out.put(Job::Close)?;
            for part in parts.as_slice().iter().rev() {
                out.put(Job::Pattern(part))?;
            }
            out.put(name(ident))
        }
        PatS::Parens { of, .. } => {
            out.open("parens")?;
            out.put(Job::Close)?;
            out.put(Job::Pattern(of.get()))
        }
    }
}
