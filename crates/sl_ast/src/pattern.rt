//! Patterns.

use crate::ident::Ident;
use crate::literal::Literal;
use crate::type_tree::TypeTree;
use sl_text::Span;
use sqlite_items::{Boxed, Items};

/// Alternatives, at least one (SLS 8.1.11).
#[cycle(pattern)]
#[derive(Drop)]
pub struct Pattern {
    pub first: Pat,
    pub rest: Items<Pat>,
    pub span: Span,
}

/// A pattern with a type or a name for the value, or a simple one (SLS 8.1.2, 8.1.3).
#[cycle(pattern)]
#[derive(Drop)]
pub enum Pat {
    Typed {
        name: Wildcard,
        ty: TypeTree,
        span: Span,
    },
    Named {
        name: Ident,
        of: PatS,
        span: Span,
    },
    Simple(PatS),
}

/// A name, or `_`.
#[derive(Drop)]
pub enum Wildcard {
    Id(Ident),
    Any(Span),
}

/// A simple pattern (SLS 8.1).
#[cycle(pattern)]
#[derive(Drop)]
pub enum PatS {
    Any(Span),
    Literal {
        minus: bool,
        literal: Literal,
        span: Span,
    },
    /// A name, or a constructor with a pattern for each parameter.
    Id {
        name: Ident,
        parts: Option<Items<Pattern>>,
        span: Span,
    },
    Parens {
        of: Boxed<Pattern>,
        span: Span,
    },
}
