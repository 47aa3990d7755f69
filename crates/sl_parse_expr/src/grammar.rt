//! The rules of expressions take the reader of the expressions inside as a parameter, so that each is proved by itself.

ghost use Rattle.std.specs.Prelude.{◌≡◌};
ghost use Rattle.sl_parse_expr.specs.Levels.{expr};
ghost use Rattle.sl_parse_expr.specs.Nests.{Nests};
ghost use Rattle.sl_parse_expr.specs.Reading.{Reads};

use crate::cursor::Cursor;
use crate::stopped::Stopped;
use sl_ast::Expr;
use std::alloc::Global;

/// Readers of the rules, over a reader of expressions that nest one level less.
#[derive(Clone, Copy)]
pub struct Grammar<F> {
    pub alloc: Global,
    /// How deep expressions and patterns may still nest.
    pub depth: usize,
    pub expr: F,
}

impl<F: Fn(Global, &mut Cursor<'_>, usize) -> Result<Expr, Stopped>> Grammar<F> {
    /// An expression inside.
    pub fn expr(&self, tokens: &mut Cursor<'_>) -> Result<Expr, Stopped>
        requires { Nests expr self.now.depth (F.pre self.now.expr) (F.post self.now.expr) }
        ensures { Reads (expr self.now.depth tokens.old) result tokens.new }
    {
        (self.expr)(self.alloc, tokens, self.depth)
    }
}
