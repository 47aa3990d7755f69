//! Names, types and literals in outlines.

use crate::outline::{Job, Outline};
use sl_ast::{Binding, Ident, Literal, TypeTree};
use sl_num::Numeral;
use std::alloc::AllocError;
use std::fmt::Write;

pub(crate) fn name<'a>(ident: &'a Ident) -> Job<'a> {
    Job::Word(ident.name.as_str())
}

pub(crate) fn binding_word(binding: Binding) -> &'static str {
    match binding {
        Binding::Val => "val",
        Binding::Var => "var",
    }
}

/// `: NAME`, or `: (NAME ARGUMENT)`.
pub(crate) fn write_type(out: &mut Outline, ty: &TypeTree) -> Result<(), AllocError> {
    out.word(":")?;
    match ty {
        TypeTree::Name(ident) => out.word(ident.name.as_str()),
        TypeTree::Applied { name, arg, .. } => {
            out.open(name.name.as_str())?;
            out.word(arg.name.as_str())?;
            out.close()
        }
    }
}

pub(crate) fn write_literal(out: &mut Outline, literal: &Literal) -> Result<(), AllocError> {
    match literal {
        Literal::Number(number, _) => write_number(out, *number),
        Literal::Text(text, _) => {
            let quoted = format!(in out.alloc(); "\"{}\"", text.as_str())?;
            out.word(quoted.as_str())
        }
        Literal::True(_) => out.word("true"),
        Literal::False(_) => out.word("false"),
        Literal::Null(_) => out.word("null"),
    }
}

// In decimal; `L` stands behind a Long, `x` behind a hexadecimal one.
fn write_number(out: &mut Outline, number: Numeral) -> Result<(), AllocError> {
    let text = match number {
        Numeral::Int { value, hex: false } => format!(in out.alloc(); "{value}")?,
        Numeral::Int { value, hex: true } => format!(in out.alloc(); "{value}x")?,
        Numeral::Long { value, hex: false } => format!(in out.alloc(); "{value}L")?,
        Numeral::Long { value, hex: true } => format!(in out.alloc(); "{value}Lx")?,
    };
    out.word(text.as_str())
}
