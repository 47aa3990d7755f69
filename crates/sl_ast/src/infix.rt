//! Infix expressions.

use crate::operator::{Operator, Sign};
use crate::simple::Simple;
use sl_text::Span;
use sqlite_items::Items;

/// Operands with operators between them, in the order of the text, without grouping (SLS 6.12.3).
#[cycle(expr)]
#[derive(Drop)]
pub struct Infix {
    pub first: Prefix,
    pub rest: Items<Operation>,
    pub span: Span,
}

/// An operator and its right operand.
#[cycle(expr)]
#[derive(Drop)]
pub struct Operation {
    pub operator: Operator,
    pub operand: Prefix,
}

/// A simple expression, perhaps with an operator before it (SLS 6.12.1).
#[cycle(expr)]
#[derive(Drop)]
pub struct Prefix {
    pub sign: Option<Sign>,
    pub simple: Simple,
    pub span: Span,
}
