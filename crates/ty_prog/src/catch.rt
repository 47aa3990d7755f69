//! Handlers of exceptions.

use crate::case::Case;
use crate::expr::Expr;
use sqlite_items::{Boxed, Items};

/// What catches an exception (SLS 6.20): cases, which are high, or a body that finds the exception in a local.
#[cycle(tree)]
#[derive(Debug, Drop)]
pub enum Catch {
    Cases(Items<Case>),
    Any { local: u32, body: Boxed<Expr> },
}
