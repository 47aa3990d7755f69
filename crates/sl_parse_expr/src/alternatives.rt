//! The `else` of an `if`, behind separators that may turn out not to be its own.

ghost use Rattle.std.specs.Prelude.{◌≡◌};
ghost use Rattle.sl_parse_expr.specs.Levels.{expr};
ghost use Rattle.sl_parse_expr.specs.Nests.{Nests};
ghost use Rattle.sl_parse_expr.specs.PatternRules.{pattern};
ghost use Rattle.sl_parse_expr.specs.Reading.{Reads};
ghost use Rattle.sl_parse_expr.specs.Rules as spec;

use crate::ahead::Ahead;
use crate::cursor::Cursor;
use crate::grammar::Grammar;
use crate::starts::{line_from, semi_from};
use crate::stopped::Stopped;
use crate::tokens::expect;
use sl_ast::Expr;
use sqlite_items::Boxed;
use std::alloc::Global;

impl<F: Fn(Global, &mut Cursor<'_>, usize) -> Result<Expr, Stopped>> Grammar<F> {
    /// 'else' Expr; what was held before it goes away.
    #[tactic(auto, unfolding(crate::specs::Rules::with_else, crate::specs::Reading::absorb))]
    pub fn with_else(&self, tokens: &mut Cursor<'_>) -> Result<Option<Boxed<Expr>>, Stopped>
        requires { Nests expr self.now.depth (F.pre self.now.expr) (F.post self.now.expr) }
        ensures { Reads (spec.with_else (expr self.now.depth) (pattern self.now.depth) tokens.old) result tokens.new }
    {
        let _clean = tokens.absorb();
        expect(tokens, Ahead::Else)?;
        let found = self.expr(tokens)?;
        Ok(Some(Boxed::new(self.alloc, found)?))
    }

    /// An `else` behind `;` or two line ends.
    #[tactic(auto, unfolding(crate::specs::Rules::third))]
    pub fn third(&self, tokens: &mut Cursor<'_>) -> Result<Option<Boxed<Expr>>, Stopped>
        requires { Nests expr self.now.depth (F.pre self.now.expr) (F.post self.now.expr) }
        ensures { Reads (spec.third (expr self.now.depth) (pattern self.now.depth) tokens.old) result tokens.new }
    {
        if tokens.is_at(Ahead::Else) {
            self.with_else(tokens)
        } else {
            Ok(None)
        }
    }

    /// An `else` behind one line end, or behind two.
    #[tactic(auto, unfolding(crate::specs::Rules::second))]
    pub fn second(&self, tokens: &mut Cursor<'_>) -> Result<Option<Boxed<Expr>>, Stopped>
        requires { Nests expr self.now.depth (F.pre self.now.expr) (F.post self.now.expr) }
        ensures { Reads (spec.second (expr self.now.depth) (pattern self.now.depth) tokens.old) result tokens.new }
    {
        if tokens.is_at(Ahead::Else) {
            self.with_else(tokens)
        } else if tokens.is_at(Ahead::Newline) {
            tokens.hold();
            self.third(tokens)
        } else {
            Ok(None)
        }
    }

    /// [[semi] 'else' Expr]
    #[tactic(auto, unfolding(crate::specs::Rules::other))]
    pub fn other(&self, tokens: &mut Cursor<'_>) -> Result<Option<Boxed<Expr>>, Stopped>
        requires { Nests expr self.now.depth (F.pre self.now.expr) (F.post self.now.expr) }
        ensures { Reads (spec.other (expr self.now.depth) (pattern self.now.depth) tokens.old) result tokens.new }
    {
        if tokens.is_at(Ahead::Else) {
            self.with_else(tokens)
        } else if semi_from(tokens.waits(), tokens.ahead()) {
            tokens.hold();
            self.third(tokens)
        } else if line_from(tokens.waits(), tokens.ahead()) {
            tokens.hold();
            self.second(tokens)
        } else {
            Ok(None)
        }
    }
}
