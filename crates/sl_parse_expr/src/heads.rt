//! What simple expressions begin with.

ghost use Rattle.std.specs.Prelude.{◌≡◌, IfOk, IfErr};
ghost use Rattle.sl_parse_expr.specs.Spans.{span_or, par_args_span};
ghost use Rattle.sl_parse_expr.specs.declared.stopped.Stopped.TheVariants.{Memory};
ghost use Rattle.sl_parse_expr.specs.Levels.{expr};
ghost use Rattle.sl_parse_expr.specs.Nests.{Nests};
ghost use Rattle.sl_parse_expr.specs.PatternRules.{pattern};
ghost use Rattle.sl_parse_expr.specs.Ahead.{same};
ghost use Rattle.sl_parse_expr.specs.declared.ahead.Ahead.TheVariants as see;
ghost use Rattle.sl_parse_expr.specs.Reading.{Reads, choose};
ghost use Rattle.sl_parse_expr.specs.Rules as spec;

use crate::ahead::Ahead;
use crate::cursor::Cursor;
use crate::grammar::Grammar;
use crate::spans::{join, par_args_span};
use crate::stopped::Stopped;
use crate::tokens::{expect, literal, name};
use sl_ast::{Expr, Head, ParArgs};
use sl_text::Span;
use sqlite_items::Boxed;
use std::alloc::Global;

impl<F: Fn(Global, &mut Cursor<'_>, usize) -> Result<Expr, Stopped>> Grammar<F> {
    /// literal
    #[tactic(auto, unfolding(crate::specs::Rules::literal_start))]
    pub fn literal_start(&self, tokens: &mut Cursor<'_>) -> Result<(Head, bool), Stopped>
        requires { Nests expr self.now.depth (F.pre self.now.expr) (F.post self.now.expr) }
        ensures { Reads (spec.literal_start (expr self.now.depth) (pattern self.now.depth) tokens.old) result tokens.new }
    {
        Ok((Head::Literal(literal(self.alloc, tokens)?), true))
    }

    /// id
    #[tactic(auto, unfolding(crate::specs::Rules::name_start))]
    pub fn name_start(&self, tokens: &mut Cursor<'_>) -> Result<(Head, bool), Stopped>
        requires { Nests expr self.now.depth (F.pre self.now.expr) (F.post self.now.expr) }
        ensures { Reads (spec.name_start (expr self.now.depth) (pattern self.now.depth) tokens.old) result tokens.new }
    {
        Ok((Head::Id(name(self.alloc, tokens)?), true))
    }

    /// 'this'
    #[tactic(auto, unfolding(crate::specs::Rules::this_start))]
    pub fn this_start(&self, tokens: &mut Cursor<'_>) -> Result<(Head, bool), Stopped>
        requires { Nests expr self.now.depth (F.pre self.now.expr) (F.post self.now.expr) }
        ensures { Reads (spec.this_start (expr self.now.depth) (pattern self.now.depth) tokens.old) result tokens.new }
    {
        Ok((Head::This(expect(tokens, Ahead::This)?), true))
    }

    /// 'super' '.' id
    #[tactic(auto, unfolding(crate::specs::Rules::super_start))]
    pub fn super_start(&self, tokens: &mut Cursor<'_>) -> Result<(Head, bool), Stopped>
        requires { Nests expr self.now.depth (F.pre self.now.expr) (F.post self.now.expr) }
        ensures { Reads (spec.super_start (expr self.now.depth) (pattern self.now.depth) tokens.old) result tokens.new }
    {
        let start = expect(tokens, Ahead::Super)?;
        expect(tokens, Ahead::Dot)?;
        let member = name(self.alloc, tokens)?;
        let span = join(start, member.span);
        Ok((Head::Super { member, span }, true))
    }

    /// ParArgs, as arguments that are there.
    #[tactic(auto, unfolding(crate::specs::Rules::new_args))]
    pub fn new_args(&self, tokens: &mut Cursor<'_>) -> Result<Option<ParArgs>, Stopped>
        requires { Nests expr self.now.depth (F.pre self.now.expr) (F.post self.now.expr) }
        ensures { Reads (spec.new_args (expr self.now.depth) (pattern self.now.depth) tokens.old) result tokens.new }
    {
        Ok(Some(self.par_args(tokens)?))
    }

    /// 'new' id [ParArgs]
    #[tactic(auto, unfolding(crate::specs::Rules::new_start))]
    pub fn new_start(&self, tokens: &mut Cursor<'_>) -> Result<(Head, bool), Stopped>
        requires { Nests expr self.now.depth (F.pre self.now.expr) (F.post self.now.expr) }
        ensures { Reads (spec.new_start (expr self.now.depth) (pattern self.now.depth) tokens.old) result tokens.new }
    {
        let start = expect(tokens, Ahead::New)?;
        let class = name(self.alloc, tokens)?;
        let args = if tokens.offers(Ahead::OpenParen) {
            self.new_args(tokens)?
        } else {
            None
        };
        let end = end_of_args(class.span, &args);
        let args = boxed(self.alloc, args)?;
        let span = join(start, end);
        Ok((Head::New { class, args, span }, false))
    }

    /// ')' of empty parentheses, and where it stands.
    #[tactic(auto, unfolding(crate::specs::Rules::nothing_inside))]
    pub fn nothing_inside(
        &self,
        tokens: &mut Cursor<'_>,
    ) -> Result<(Option<Boxed<Expr>>, Span), Stopped>
        requires { Nests expr self.now.depth (F.pre self.now.expr) (F.post self.now.expr) }
        ensures { Reads (spec.nothing_inside (expr self.now.depth) (pattern self.now.depth) tokens.old) result tokens.new }
    {
        let end = expect(tokens, Ahead::CloseParen)?;
        Ok((None, end))
    }

    /// Expr ')', and where the parenthesis stands.
    #[tactic(auto, unfolding(crate::specs::Rules::expr_inside))]
    pub fn expr_inside(
        &self,
        tokens: &mut Cursor<'_>,
    ) -> Result<(Option<Boxed<Expr>>, Span), Stopped>
        requires { Nests expr self.now.depth (F.pre self.now.expr) (F.post self.now.expr) }
        ensures { Reads (spec.expr_inside (expr self.now.depth) (pattern self.now.depth) tokens.old) result tokens.new }
    {
        let found = self.expr(tokens)?;
        let end = expect(tokens, Ahead::CloseParen)?;
        Ok((Some(Boxed::new(self.alloc, found)?), end))
    }

    /// '(' [Expr] ')'
    #[tactic(auto, unfolding(crate::specs::Rules::parens_start))]
    pub fn parens_start(&self, tokens: &mut Cursor<'_>) -> Result<(Head, bool), Stopped>
        requires { Nests expr self.now.depth (F.pre self.now.expr) (F.post self.now.expr) }
        ensures { Reads (spec.parens_start (expr self.now.depth) (pattern self.now.depth) tokens.old) result tokens.new }
    {
        let start = expect(tokens, Ahead::OpenParen)?;
        let (of, end) = if tokens.is_at(Ahead::CloseParen) {
            self.nothing_inside(tokens)?
        } else {
            self.expr_inside(tokens)?
        };
        let span = join(start, end);
        Ok((Head::Parens { of, span }, true))
    }

    /// '{' Block '}'
    #[tactic(auto, unfolding(crate::specs::Rules::block_start))]
    pub fn block_start(&self, tokens: &mut Cursor<'_>) -> Result<(Head, bool), Stopped>
        requires { Nests expr self.now.depth (F.pre self.now.expr) (F.post self.now.expr) }
        ensures { Reads (spec.block_start (expr self.now.depth) (pattern self.now.depth) tokens.old) result tokens.new }
    {
        let (block, span) = self.braces(tokens)?;
        Ok((Head::Block { block, span }, false))
    }

    /// Head, and whether all suffixes may follow at once.
    #[tactic(auto, unfolding(crate::specs::Rules::start))]
    pub fn start(&self, tokens: &mut Cursor<'_>) -> Result<(Head, bool), Stopped>
        requires { Nests expr self.now.depth (F.pre self.now.expr) (F.post self.now.expr) }
        ensures { Reads (spec.start (expr self.now.depth) (pattern self.now.depth) tokens.old) result tokens.new }
    {
        if tokens.is_at(Ahead::Literal) {
            self.literal_start(tokens)
        } else if tokens.is_at(Ahead::Id) {
            self.name_start(tokens)
        } else if tokens.is_at(Ahead::This) {
            self.this_start(tokens)
        } else {
            self.later_start(tokens)
        }
    }

    // The heads that begin with another word, or in brackets.
    #[tactic(auto)]
    pub fn later_start(&self, tokens: &mut Cursor<'_>) -> Result<(Head, bool), Stopped>
        requires { Nests expr self.now.depth (F.pre self.now.expr) (F.post self.now.expr) }
        ensures { Reads (choose (same see.Super) (spec.super_start (expr self.now.depth) (pattern self.now.depth)) (choose (same see.New) (spec.new_start (expr self.now.depth) (pattern self.now.depth)) (choose (same see.OpenParen) (spec.parens_start (expr self.now.depth) (pattern self.now.depth)) (spec.block_start (expr self.now.depth) (pattern self.now.depth)))) tokens.old) result tokens.new }
    {
        if tokens.is_at(Ahead::Super) {
            self.super_start(tokens)
        } else if tokens.is_at(Ahead::New) {
            self.new_start(tokens)
        } else if tokens.is_at(Ahead::OpenParen) {
            self.parens_start(tokens)
        } else {
            self.block_start(tokens)
        }
    }
}

// Where arguments end, or what stands before them.
fn end_of_args(before: Span, args: &Option<ParArgs>) -> Span
    ensures { result ≡ span_or par_args_span before args.now }
{
    match args {
        Some(args) => par_args_span(args),
        None => before,
    }
}

// Arguments behind a pointer.
fn boxed(alloc: Global, args: Option<ParArgs>) -> Result<Option<Boxed<ParArgs>>, Stopped>
    ensures found { IfOk result (λ found. found ≡ args) }
    ensures memory { IfErr result (λ e. e ≡ Memory) }
{
    match args {
        Some(args) => Ok(Some(Boxed::new(alloc, args)?)),
        None => Ok(None),
    }
}
