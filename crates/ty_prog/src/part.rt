//! Trees that are owned.

use crate::case::Case;
use crate::expr::Expr;
use crate::pattern::Pattern;

/// A child of a node, owned.
#[derive(Debug, Drop)]
pub enum Part {
    Expr(Expr),
    Case(Case),
    Pattern(Pattern),
}
