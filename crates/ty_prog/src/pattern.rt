//! Patterns.

use crate::expr::Expr;
use crate::ty::Ty;
use sqlite_items::{Boxed, Items};

/// A pattern (SLS 8.1). A variable is a local.
#[cycle(tree)]
#[derive(Debug, Drop)]
pub enum Pattern {
    Any,
    /// The value goes into the local where the pattern matches.
    Bind(u32, Boxed<Pattern>),
    OfType(Ty),
    Literal(Boxed<Expr>),
    /// An object's name.
    Object(u32),
    /// The case class with this number, and a pattern for each of its parameters.
    Make { class: u32, parts: Items<Pattern> },
    Either(Items<Pattern>),
}
