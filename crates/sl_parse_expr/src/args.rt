//! Arguments.

ghost use Rattle.std.specs.Prelude.{◌≡◌};
ghost use Rattle.sl_parse_expr.specs.Levels.{expr};
ghost use Rattle.sl_parse_expr.specs.Nests.{Nests};
ghost use Rattle.sl_parse_expr.specs.PatternRules.{pattern};
ghost use Rattle.sl_parse_expr.specs.Reading.{Reads};
ghost use Rattle.sl_parse_expr.specs.Rules as spec;

use crate::ahead::Ahead;
use crate::cursor::Cursor;
use crate::grammar::Grammar;
use crate::spans::join;
use crate::stopped::Stopped;
use crate::tokens::expect;
use sl_ast::{Expr, ParArgs};
use sl_text::Span;
use sqlite_items::Items;
use std::alloc::Global;

impl<F: Fn(Global, &mut Cursor<'_>, usize) -> Result<Expr, Stopped>> Grammar<F> {
    /// ',' Expr
    #[tactic(auto, unfolding(crate::specs::Rules::next_arg))]
    pub fn next_arg(&self, tokens: &mut Cursor<'_>) -> Result<Expr, Stopped>
        requires { Nests expr self.now.depth (F.pre self.now.expr) (F.post self.now.expr) }
        ensures { Reads (spec.next_arg (expr self.now.depth) (pattern self.now.depth) tokens.old) result tokens.new }
    {
        expect(tokens, Ahead::Comma)?;
        self.expr(tokens)
    }

    /// ')' of an empty list, and where it stands.
    #[tactic(auto, unfolding(crate::specs::Rules::no_args))]
    pub fn no_args(&self, tokens: &mut Cursor<'_>) -> Result<(Items<Expr>, Span), Stopped>
        requires { Nests expr self.now.depth (F.pre self.now.expr) (F.post self.now.expr) }
        ensures { Reads (spec.no_args (expr self.now.depth) (pattern self.now.depth) tokens.old) result tokens.new }
    {
        let end = expect(tokens, Ahead::CloseParen)?;
        Ok((Items::new(self.alloc), end))
    }

    /// Expr {',' Expr} ')', and where the parenthesis stands.
    #[tactic(auto, unfolding(crate::specs::Rules::some_args))]
    pub fn some_args(&self, tokens: &mut Cursor<'_>) -> Result<(Items<Expr>, Span), Stopped>
        requires { Nests expr self.now.depth (F.pre self.now.expr) (F.post self.now.expr) }
        ensures { Reads (spec.some_args (expr self.now.depth) (pattern self.now.depth) tokens.old) result tokens.new }
    {
        let first = self.expr(tokens)?;
        let mut found = Items::new(self.alloc);
        found.push(first)?;
        let args = self.more_args(tokens, found)?;
        let end = expect(tokens, Ahead::CloseParen)?;
        Ok((args, end))
    }

    /// ParArgs ::= '(' [Expr {',' Expr}] ')'
    #[tactic(auto, unfolding(crate::specs::Rules::par_args))]
    pub fn par_args(&self, tokens: &mut Cursor<'_>) -> Result<ParArgs, Stopped>
        requires { Nests expr self.now.depth (F.pre self.now.expr) (F.post self.now.expr) }
        ensures { Reads (spec.par_args (expr self.now.depth) (pattern self.now.depth) tokens.old) result tokens.new }
    {
        let start = expect(tokens, Ahead::OpenParen)?;
        let (args, end) = if tokens.is_at(Ahead::CloseParen) {
            self.no_args(tokens)?
        } else {
            self.some_args(tokens)?
        };
        Ok(ParArgs {
            args,
            span: join(start, end),
        })
    }

    /// {',' Expr}, behind these arguments.
    #[tactic(auto, unfolding(crate::specs::Rules::more_args))]
    pub fn more_args(
        &self,
        tokens: &mut Cursor<'_>,
        first: Items<Expr>,
    ) -> Result<Items<Expr>, Stopped>
        requires { Nests expr self.now.depth (F.pre self.now.expr) (F.post self.now.expr) }
        ensures { Reads (spec.more_args (expr self.now.depth) (pattern self.now.depth) first tokens.old) result tokens.new }
    {
        let mut found = first;
        'turn: while tokens.offers(Ahead::Comma) {
            found.push(self.next_arg(tokens)?)?;
        }
        Ok(found)
    }
}
