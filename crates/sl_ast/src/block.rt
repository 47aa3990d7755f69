//! Blocks.

use crate::binding::Binding;
use crate::expr::Expr;
use crate::ident::Ident;
use crate::type_tree::TypeTree;
use sl_text::Span;
use sqlite_items::{Boxed, Items};

/// The statements of a block (SLS 6.11), without their separators.
#[cycle(expr)]
#[derive(Drop)]
pub struct Block {
    pub stats: Items<Stat>,
}

/// A statement of a block. A further form of local definition goes here.
#[cycle(expr)]
#[derive(Drop)]
pub enum Stat {
    Local {
        binding: Binding,
        name: Ident,
        ty: Option<Boxed<TypeTree>>,
        value: Boxed<Expr>,
        span: Span,
    },
    Expr(Expr),
}
