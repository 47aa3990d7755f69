//! Arguments.

use crate::block::Block;
use crate::expr::Expr;
use sl_text::Span;
use sqlite_items::Items;

/// The arguments of a call (SLS 6.6): a list in parentheses, or a block that is the one argument.
#[cycle(expr)]
#[derive(Drop)]
pub enum Args {
    Parens(ParArgs),
    Block { block: Block, span: Span },
}

/// Arguments in parentheses, with commas between them.
#[cycle(expr)]
#[derive(Drop)]
pub struct ParArgs {
    pub args: Items<Expr>,
    pub span: Span,
}
