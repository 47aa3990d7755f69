//! Cases.

use crate::block::Block;
use crate::infix::Infix;
use crate::pattern::Pattern;
use sl_text::Span;
use sqlite_items::{Boxed, Items};

/// The cases of a match or of a handler, at least one (SLS 8.4).
#[cycle(expr)]
#[derive(Drop)]
pub struct Cases {
    pub first: Boxed<Case>,
    pub rest: Items<Case>,
}

/// A case, with its guard where it has one.
#[cycle(expr)]
#[derive(Drop)]
pub struct Case {
    pub pattern: Pattern,
    pub guard: Option<Boxed<Infix>>,
    pub body: Block,
    pub span: Span,
}
