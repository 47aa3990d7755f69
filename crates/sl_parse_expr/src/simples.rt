//! Simple expressions: selections and calls.

ghost use Rattle.std.specs.Prelude.{◌≡◌};
ghost use Rattle.sl_parse_expr.specs.Levels.{expr};
ghost use Rattle.sl_parse_expr.specs.Nests.{Nests};
ghost use Rattle.sl_parse_expr.specs.PatternRules.{pattern};
ghost use Rattle.sl_parse_expr.specs.Reading.{Reads};
ghost use Rattle.sl_parse_expr.specs.Rules as spec;

use crate::ahead::Ahead;
use crate::chain::Chain;
use crate::cursor::Cursor;
use crate::grammar::Grammar;
use crate::spans::{head_span, join, last_suffix};
use crate::starts::goes_suffix;
use crate::stopped::Stopped;
use crate::tokens::{expect, name};
use sl_ast::{Args, Expr, Simple, Suffix};
use sqlite_items::Items;
use std::alloc::Global;

impl<F: Fn(Global, &mut Cursor<'_>, usize) -> Result<Expr, Stopped>> Grammar<F> {
    /// '.' id
    #[tactic(auto, unfolding(crate::specs::Rules::selection))]
    pub fn selection(&self, tokens: &mut Cursor<'_>) -> Result<Option<Suffix>, Stopped>
        requires { Nests expr self.now.depth (F.pre self.now.expr) (F.post self.now.expr) }
        ensures { Reads (spec.selection (expr self.now.depth) (pattern self.now.depth) tokens.old) result tokens.new }
    {
        expect(tokens, Ahead::Dot)?;
        Ok(Some(Suffix::Select(name(self.alloc, tokens)?)))
    }

    /// ParArgs, as a suffix.
    #[tactic(auto, unfolding(crate::specs::Rules::call))]
    pub fn call(&self, tokens: &mut Cursor<'_>) -> Result<Option<Suffix>, Stopped>
        requires { Nests expr self.now.depth (F.pre self.now.expr) (F.post self.now.expr) }
        ensures { Reads (spec.call (expr self.now.depth) (pattern self.now.depth) tokens.old) result tokens.new }
    {
        Ok(Some(Suffix::Apply(Args::Parens(self.par_args(tokens)?))))
    }

    /// '{' Block '}', as a suffix.
    #[tactic(auto, unfolding(crate::specs::Rules::block_call))]
    pub fn block_call(&self, tokens: &mut Cursor<'_>) -> Result<Option<Suffix>, Stopped>
        requires { Nests expr self.now.depth (F.pre self.now.expr) (F.post self.now.expr) }
        ensures { Reads (spec.block_call (expr self.now.depth) (pattern self.now.depth) tokens.old) result tokens.new }
    {
        let (block, span) = self.braces(tokens)?;
        Ok(Some(Suffix::Apply(Args::Block { block, span })))
    }

    /// A block behind a line end that is held, if a brace stands there.
    #[tactic(auto, unfolding(crate::specs::Rules::behind_line, crate::specs::Reading::absorb))]
    pub fn behind_line(&self, tokens: &mut Cursor<'_>) -> Result<Option<Suffix>, Stopped>
        requires { Nests expr self.now.depth (F.pre self.now.expr) (F.post self.now.expr) }
        ensures { Reads (spec.behind_line (expr self.now.depth) (pattern self.now.depth) tokens.old) result tokens.new }
    {
        if tokens.is_at(Ahead::OpenBrace) {
            let _clean = tokens.absorb();
            self.block_call(tokens)
        } else {
            Ok(None)
        }
    }

    /// A line end, behind which only a block is a suffix.
    #[tactic(auto, unfolding(crate::specs::Rules::line_call))]
    pub fn line_call(&self, tokens: &mut Cursor<'_>) -> Result<Option<Suffix>, Stopped>
        requires { Nests expr self.now.depth (F.pre self.now.expr) (F.post self.now.expr) }
        ensures { Reads (spec.line_call (expr self.now.depth) (pattern self.now.depth) tokens.old) result tokens.new }
    {
        if tokens.is_at(Ahead::Newline) {
            tokens.hold();
            self.behind_line(tokens)
        } else {
            Err(Stopped::Unexpected)
        }
    }

    /// A suffix by its first token, or none.
    #[tactic(auto, unfolding(crate::specs::Rules::suffix))]
    pub fn suffix(&self, tokens: &mut Cursor<'_>) -> Result<Option<Suffix>, Stopped>
        requires { Nests expr self.now.depth (F.pre self.now.expr) (F.post self.now.expr) }
        ensures { Reads (spec.suffix (expr self.now.depth) (pattern self.now.depth) tokens.old) result tokens.new }
    {
        if tokens.is_at(Ahead::Dot) {
            self.selection(tokens)
        } else if tokens.is_at(Ahead::OpenParen) {
            self.call(tokens)
        } else if tokens.is_at(Ahead::OpenBrace) {
            self.block_call(tokens)
        } else {
            self.line_call(tokens)
        }
    }

    /// {'.' id | Args}
    #[tactic(auto, unfolding(crate::specs::Rules::suffixes))]
    pub fn suffixes(
        &self,
        tokens: &mut Cursor<'_>,
        all: bool,
    ) -> Result<(Chain, Items<Suffix>), Stopped>
        requires { Nests expr self.now.depth (F.pre self.now.expr) (F.post self.now.expr) }
        ensures { Reads (spec.suffixes (expr self.now.depth) (pattern self.now.depth) all tokens.old) result tokens.new }
    {
        let mut found = Items::new(self.alloc);
        let mut chain = Chain::first(all);
        'turn: while goes_suffix(chain, tokens) {
            match self.suffix(tokens)? {
                Some(suffix) => {
                    found.push(suffix)?;
                    chain = Chain::All;
                }
                None => chain = Chain::Over,
            }
        }
        Ok((chain, found))
    }

    /// Simple ::= Head {'.' id | Args}
    #[tactic(auto, unfolding(crate::specs::Rules::simple))]
    pub fn simple(&self, tokens: &mut Cursor<'_>) -> Result<Simple, Stopped>
        requires { Nests expr self.now.depth (F.pre self.now.expr) (F.post self.now.expr) }
        ensures { Reads (spec.simple (expr self.now.depth) (pattern self.now.depth) tokens.old) result tokens.new }
    {
        let (head, all) = self.start(tokens)?;
        let (_, suffixes) = self.suffixes(tokens, all)?;
        let at = head_span(&head);
        let span = join(at, last_suffix(at, &suffixes));
        Ok(Simple {
            head,
            suffixes,
            span,
        })
    }
}
