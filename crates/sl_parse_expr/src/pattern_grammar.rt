//! The rules of patterns take the reader of the patterns inside as a parameter, so that each is proved by itself.

ghost use Rattle.std.specs.Prelude.{◌≡◌};
ghost use Rattle.sl_parse_expr.specs.Nests.{Nests};
ghost use Rattle.sl_parse_expr.specs.PatternRules.{pattern};
ghost use Rattle.sl_parse_expr.specs.Reading.{Reads};

use crate::cursor::Cursor;
use crate::stopped::Stopped;
use sl_ast::Pattern;
use std::alloc::Global;

/// Readers of the rules of patterns, over a reader of patterns that nest one level less.
#[derive(Clone, Copy)]
pub struct PatternGrammar<F> {
    pub alloc: Global,
    /// How deep patterns may still nest.
    pub depth: usize,
    pub pattern: F,
}

impl<F: Fn(Global, &mut Cursor<'_>, usize) -> Result<Pattern, Stopped>> PatternGrammar<F> {
    /// A pattern inside.
    pub fn pattern(&self, tokens: &mut Cursor<'_>) -> Result<Pattern, Stopped>
        requires { Nests pattern self.now.depth (F.pre self.now.pattern) (F.post self.now.pattern) }
        ensures { Reads (pattern self.now.depth tokens.old) result tokens.new }
    {
        (self.pattern)(self.alloc, tokens, self.depth)
    }
}
