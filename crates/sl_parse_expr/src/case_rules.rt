//! Cases.

ghost use Rattle.std.specs.Prelude.{◌≡◌};
ghost use Rattle.sl_parse_expr.specs.Levels.{expr};
ghost use Rattle.sl_parse_expr.specs.Nests.{Nests};
ghost use Rattle.sl_parse_expr.specs.PatternRules.{pattern};
ghost use Rattle.sl_parse_expr.specs.Reading.{Reads};
ghost use Rattle.sl_parse_expr.specs.Rules as spec;

use crate::ahead::Ahead;
use crate::cursor::Cursor;
use crate::grammar::Grammar;
use crate::patterns::pattern;
use crate::spans::{join, last_stat};
use crate::stopped::Stopped;
use crate::tokens::expect;
use sl_ast::{Case, Cases, Expr, Infix};
use sl_text::Span;
use sqlite_items::{Boxed, Items};
use std::alloc::Global;

impl<F: Fn(Global, &mut Cursor<'_>, usize) -> Result<Expr, Stopped>> Grammar<F> {
    /// 'if' Infix
    #[tactic(auto, unfolding(crate::specs::Rules::guarded))]
    pub fn guarded(&self, tokens: &mut Cursor<'_>) -> Result<Option<Boxed<Infix>>, Stopped>
        requires { Nests expr self.now.depth (F.pre self.now.expr) (F.post self.now.expr) }
        ensures { Reads (spec.guarded (expr self.now.depth) (pattern self.now.depth) tokens.old) result tokens.new }
    {
        expect(tokens, Ahead::If)?;
        let found = self.infix_expr(tokens)?;
        Ok(Some(Boxed::new(self.alloc, found)?))
    }

    /// Case ::= 'case' Pattern ['if' Infix] '=>' Block
    #[tactic(auto, unfolding(crate::specs::Rules::case_reader))]
    pub fn case_reader(&self, tokens: &mut Cursor<'_>) -> Result<Case, Stopped>
        requires { Nests expr self.now.depth (F.pre self.now.expr) (F.post self.now.expr) }
        ensures { Reads (spec.case_reader (expr self.now.depth) (pattern self.now.depth) tokens.old) result tokens.new }
    {
        let start = expect(tokens, Ahead::Case)?;
        let found = pattern(self.alloc, tokens, self.depth)?;
        let guard = if tokens.offers(Ahead::If) {
            self.guarded(tokens)?
        } else {
            None
        };
        let arrow = expect(tokens, Ahead::Arrow)?;
        let body = self.block(tokens)?;
        let span = join(start, last_stat(arrow, &body));
        Ok(Case {
            pattern: found,
            guard,
            body,
            span,
        })
    }

    /// {Case}
    #[tactic(auto, unfolding(crate::specs::Rules::more_cases))]
    pub fn more_cases(&self, tokens: &mut Cursor<'_>) -> Result<Items<Case>, Stopped>
        requires { Nests expr self.now.depth (F.pre self.now.expr) (F.post self.now.expr) }
        ensures { Reads (spec.more_cases (expr self.now.depth) (pattern self.now.depth) tokens.old) result tokens.new }
    {
        let mut found = Items::new(self.alloc);
        'turn: while tokens.offers(Ahead::Case) {
            found.push(self.case_reader(tokens)?)?;
        }
        Ok(found)
    }

    /// '{' Cases '}', and where the brace stands that closes it.
    #[tactic(auto, unfolding(crate::specs::Rules::cases))]
    pub fn cases(&self, tokens: &mut Cursor<'_>) -> Result<(Cases, Span), Stopped>
        requires { Nests expr self.now.depth (F.pre self.now.expr) (F.post self.now.expr) }
        ensures { Reads (spec.cases (expr self.now.depth) (pattern self.now.depth) tokens.old) result tokens.new }
    {
        expect(tokens, Ahead::OpenBrace)?;
        let case = self.case_reader(tokens)?;
        let first = Boxed::new(self.alloc, case)?;
        let rest = self.more_cases(tokens)?;
        let end = expect(tokens, Ahead::CloseBrace)?;
        Ok((Cases { first, rest }, end))
    }
}
