//! Simple expressions.

use crate::args::{Args, ParArgs};
use crate::block::Block;
use crate::expr::Expr;
use crate::ident::Ident;
use crate::literal::Literal;
use sl_text::Span;
use sqlite_items::{Boxed, Items};

/// A head with its chain of selections and calls, in the order of the text (SLS 6.4, 6.6). Each suffix takes all that
/// stands before it.
#[cycle(expr)]
#[derive(Drop)]
pub struct Simple {
    pub head: Head,
    pub suffixes: Items<Suffix>,
    pub span: Span,
}

/// What a simple expression begins with. A further form of simple expression goes here.
#[cycle(expr)]
#[derive(Drop)]
pub enum Head {
    Literal(Literal),
    Id(Ident),
    This(Span),
    Super {
        member: Ident,
        span: Span,
    },
    New {
        class: Ident,
        args: Option<Boxed<ParArgs>>,
        span: Span,
    },
    /// In parentheses; without an expression the value of type Unit.
    Parens {
        of: Option<Boxed<Expr>>,
        span: Span,
    },
    Block {
        block: Block,
        span: Span,
    },
}

/// A selection or a call.
#[cycle(expr)]
#[derive(Drop)]
pub enum Suffix {
    Select(Ident),
    Apply(Args),
}
