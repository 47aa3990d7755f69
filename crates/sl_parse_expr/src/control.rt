//! Expressions that begin with a word, and what stands behind an infix expression.

ghost use Rattle.std.specs.Prelude.{◌≡◌};
ghost use Rattle.sl_parse_expr.specs.Levels.{expr};
ghost use Rattle.sl_parse_expr.specs.Nests.{Nests};
ghost use Rattle.sl_parse_expr.specs.PatternRules.{pattern};
ghost use Rattle.sl_parse_expr.specs.Reading.{Reads};
ghost use Rattle.sl_parse_expr.specs.Rules as spec;

use crate::ahead::Ahead;
use crate::cursor::Cursor;
use crate::grammar::Grammar;
use crate::spans::{end_of_cases, end_of_expr, expr_span, infix_span, join};
use crate::starts::offers_behind;
use crate::stopped::Stopped;
use crate::tokens::{expect, lines};
use sl_ast::{Cases, Expr, Infix};
use sl_text::Span;
use sqlite_items::Boxed;
use std::alloc::Global;

impl<F: Fn(Global, &mut Cursor<'_>, usize) -> Result<Expr, Stopped>> Grammar<F> {
    /// '(' Expr ')' {nl}
    #[tactic(auto, unfolding(crate::specs::Rules::condition))]
    pub fn condition(&self, tokens: &mut Cursor<'_>) -> Result<Expr, Stopped>
        requires { Nests expr self.now.depth (F.pre self.now.expr) (F.post self.now.expr) }
        ensures { Reads (spec.condition (expr self.now.depth) (pattern self.now.depth) tokens.old) result tokens.new }
    {
        expect(tokens, Ahead::OpenParen)?;
        let found = self.expr(tokens)?;
        expect(tokens, Ahead::CloseParen)?;
        lines(tokens)?;
        Ok(found)
    }

    /// 'if' '(' Expr ')' {nl} Expr [[semi] 'else' Expr]
    #[tactic(auto, unfolding(crate::specs::Rules::if_expr))]
    pub fn if_expr(&self, tokens: &mut Cursor<'_>) -> Result<Expr, Stopped>
        requires { Nests expr self.now.depth (F.pre self.now.expr) (F.post self.now.expr) }
        ensures { Reads (spec.if_expr (expr self.now.depth) (pattern self.now.depth) tokens.old) result tokens.new }
    {
        let start = expect(tokens, Ahead::If)?;
        let condition = Boxed::new(self.alloc, self.condition(tokens)?)?;
        let body = self.expr(tokens)?;
        let alternative = self.other(tokens)?;
        let span = join(start, end_of_expr(expr_span(&body), &alternative));
        Ok(Expr::If {
            condition,
            body: Boxed::new(self.alloc, body)?,
            alternative,
            span,
        })
    }

    /// 'while' '(' Expr ')' {nl} Expr
    #[tactic(auto, unfolding(crate::specs::Rules::while_expr))]
    pub fn while_expr(&self, tokens: &mut Cursor<'_>) -> Result<Expr, Stopped>
        requires { Nests expr self.now.depth (F.pre self.now.expr) (F.post self.now.expr) }
        ensures { Reads (spec.while_expr (expr self.now.depth) (pattern self.now.depth) tokens.old) result tokens.new }
    {
        let start = expect(tokens, Ahead::While)?;
        let condition = Boxed::new(self.alloc, self.condition(tokens)?)?;
        let body = self.expr(tokens)?;
        let span = join(start, expr_span(&body));
        Ok(Expr::While {
            condition,
            body: Boxed::new(self.alloc, body)?,
            span,
        })
    }

    /// 'catch' '{' Cases '}'
    #[tactic(auto, unfolding(crate::specs::Rules::handler))]
    pub fn handler(&self, tokens: &mut Cursor<'_>) -> Result<Option<(Cases, Span)>, Stopped>
        requires { Nests expr self.now.depth (F.pre self.now.expr) (F.post self.now.expr) }
        ensures { Reads (spec.handler (expr self.now.depth) (pattern self.now.depth) tokens.old) result tokens.new }
    {
        expect(tokens, Ahead::Catch)?;
        Ok(Some(self.cases(tokens)?))
    }

    /// 'finally' Expr
    #[tactic(auto, unfolding(crate::specs::Rules::finalizer))]
    pub fn finalizer(&self, tokens: &mut Cursor<'_>) -> Result<Option<Boxed<Expr>>, Stopped>
        requires { Nests expr self.now.depth (F.pre self.now.expr) (F.post self.now.expr) }
        ensures { Reads (spec.finalizer (expr self.now.depth) (pattern self.now.depth) tokens.old) result tokens.new }
    {
        expect(tokens, Ahead::Finally)?;
        let found = self.expr(tokens)?;
        Ok(Some(Boxed::new(self.alloc, found)?))
    }

    /// 'try' Expr ['catch' '{' Cases '}'] ['finally' Expr]
    #[tactic(auto, unfolding(crate::specs::Rules::try_expr))]
    pub fn try_expr(&self, tokens: &mut Cursor<'_>) -> Result<Expr, Stopped>
        requires { Nests expr self.now.depth (F.pre self.now.expr) (F.post self.now.expr) }
        ensures { Reads (spec.try_expr (expr self.now.depth) (pattern self.now.depth) tokens.old) result tokens.new }
    {
        let start = expect(tokens, Ahead::Try)?;
        let body = self.expr(tokens)?;
        let handler = if tokens.offers(Ahead::Catch) {
            self.handler(tokens)?
        } else {
            None
        };
        let last = if tokens.offers(Ahead::Finally) {
            self.finalizer(tokens)?
        } else {
            None
        };
        let (cases, end) = end_of_cases(expr_span(&body), handler);
        let span = join(start, end_of_expr(end, &last));
        Ok(Expr::Try {
            body: Boxed::new(self.alloc, body)?,
            cases,
            last,
            span,
        })
    }

    /// 'throw' Expr
    #[tactic(auto, unfolding(crate::specs::Rules::throw_expr))]
    pub fn throw_expr(&self, tokens: &mut Cursor<'_>) -> Result<Expr, Stopped>
        requires { Nests expr self.now.depth (F.pre self.now.expr) (F.post self.now.expr) }
        ensures { Reads (spec.throw_expr (expr self.now.depth) (pattern self.now.depth) tokens.old) result tokens.new }
    {
        let start = expect(tokens, Ahead::Throw)?;
        let of = self.expr(tokens)?;
        let span = join(start, expr_span(&of));
        Ok(Expr::Throw {
            of: Boxed::new(self.alloc, of)?,
            span,
        })
    }

    /// 'match' '{' Cases '}', behind an infix expression.
    #[tactic(auto, unfolding(crate::specs::Rules::match_behind))]
    pub fn match_behind(&self, tokens: &mut Cursor<'_>, of: Infix) -> Result<Expr, Stopped>
        requires { Nests expr self.now.depth (F.pre self.now.expr) (F.post self.now.expr) }
        ensures { Reads (spec.match_behind (expr self.now.depth) (pattern self.now.depth) of tokens.old) result tokens.new }
    {
        expect(tokens, Ahead::Match)?;
        let (cases, end) = self.cases(tokens)?;
        let span = join(infix_span(&of), end);
        Ok(Expr::Match {
            of: Boxed::new(self.alloc, of)?,
            cases,
            span,
        })
    }

    /// '=' Expr, behind an infix expression.
    #[tactic(auto, unfolding(crate::specs::Rules::assign_behind))]
    pub fn assign_behind(&self, tokens: &mut Cursor<'_>, to: Infix) -> Result<Expr, Stopped>
        requires { Nests expr self.now.depth (F.pre self.now.expr) (F.post self.now.expr) }
        ensures { Reads (spec.assign_behind (expr self.now.depth) (pattern self.now.depth) to tokens.old) result tokens.new }
    {
        expect(tokens, Ahead::Equals)?;
        let value = self.expr(tokens)?;
        let span = join(infix_span(&to), expr_span(&value));
        Ok(Expr::Assign {
            to: Boxed::new(self.alloc, to)?,
            value: Boxed::new(self.alloc, value)?,
            span,
        })
    }

    /// 'match' '{' Cases '}' | '=' Expr, behind an infix expression.
    #[tactic(auto, unfolding(crate::specs::Rules::behind_infix))]
    pub fn behind_infix(&self, tokens: &mut Cursor<'_>, tree: Infix) -> Result<Expr, Stopped>
        requires { Nests expr self.now.depth (F.pre self.now.expr) (F.post self.now.expr) }
        ensures { Reads (spec.behind_infix (expr self.now.depth) (pattern self.now.depth) tree tokens.old) result tokens.new }
    {
        if tokens.is_at(Ahead::Match) {
            self.match_behind(tokens, tree)
        } else {
            self.assign_behind(tokens, tree)
        }
    }

    /// Infix ['match' '{' Cases '}' | '=' Expr]
    #[tactic(auto, unfolding(crate::specs::Rules::plain))]
    pub fn plain(&self, tokens: &mut Cursor<'_>) -> Result<Expr, Stopped>
        requires { Nests expr self.now.depth (F.pre self.now.expr) (F.post self.now.expr) }
        ensures { Reads (spec.plain (expr self.now.depth) (pattern self.now.depth) tokens.old) result tokens.new }
    {
        let tree = self.infix_expr(tokens)?;
        if offers_behind(tokens) {
            self.behind_infix(tokens, tree)
        } else {
            Ok(Expr::Infix(tree))
        }
    }

    /// Expr, over the expressions inside.
    #[tactic(auto, unfolding(crate::specs::Rules::any))]
    pub fn any(&self, tokens: &mut Cursor<'_>) -> Result<Expr, Stopped>
        requires { Nests expr self.now.depth (F.pre self.now.expr) (F.post self.now.expr) }
        ensures { Reads (spec.any (expr self.now.depth) (pattern self.now.depth) tokens.old) result tokens.new }
    {
        if tokens.is_at(Ahead::If) {
            self.if_expr(tokens)
        } else if tokens.is_at(Ahead::While) {
            self.while_expr(tokens)
        } else if tokens.is_at(Ahead::Try) {
            self.try_expr(tokens)
        } else if tokens.is_at(Ahead::Throw) {
            self.throw_expr(tokens)
        } else {
            self.plain(tokens)
        }
    }
}
