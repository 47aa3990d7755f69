//! Expressions.

use crate::cases::Cases;
use crate::infix::Infix;
use sl_text::Span;
use sqlite_items::Boxed;

/// An expression (SLS 6). A further form of expression goes here.
#[cycle(expr)]
#[derive(Drop)]
pub enum Expr {
    If {
        condition: Boxed<Expr>,
        body: Boxed<Expr>,
        alternative: Option<Boxed<Expr>>,
        span: Span,
    },
    While {
        condition: Boxed<Expr>,
        body: Boxed<Expr>,
        span: Span,
    },
    Try {
        body: Boxed<Expr>,
        cases: Option<Cases>,
        last: Option<Boxed<Expr>>,
        span: Span,
    },
    Throw {
        of: Boxed<Expr>,
        span: Span,
    },
    Match {
        of: Boxed<Infix>,
        cases: Cases,
        span: Span,
    },
    Assign {
        to: Boxed<Infix>,
        value: Boxed<Expr>,
        span: Span,
    },
    Infix(Infix),
}
