//! Blocks.

ghost use Rattle.std.specs.Prelude.{◌≡◌};
ghost use Rattle.sl_parse_expr.specs.Levels.{expr};
ghost use Rattle.sl_parse_expr.specs.Nests.{Nests};
ghost use Rattle.sl_parse_expr.specs.PatternRules.{pattern};
ghost use Rattle.sl_parse_expr.specs.Reading.{Reads};
ghost use Rattle.sl_parse_expr.specs.Rules as spec;

use crate::ahead::Ahead;
use crate::cursor::Cursor;
use crate::grammar::Grammar;
use crate::items::behind_item;
use crate::last_new::stat_ends_in_new;
use crate::spans::{expr_span, join};
use crate::starts::{begins_binding, goes_item, separates};
use crate::stopped::Stopped;
use crate::tokens::{binding, expect, name, separator};
use crate::types::type_tree;
use sl_ast::{Block, Expr, Stat, TypeTree};
use sl_text::Span;
use sqlite_items::{Boxed, Items};
use std::alloc::Global;

impl<F: Fn(Global, &mut Cursor<'_>, usize) -> Result<Expr, Stopped>> Grammar<F> {
    /// ':' Type, as a type that is there.
    #[tactic(auto, unfolding(crate::specs::Rules::typed))]
    pub fn typed(&self, tokens: &mut Cursor<'_>) -> Result<Option<Boxed<TypeTree>>, Stopped>
        requires { Nests expr self.now.depth (F.pre self.now.expr) (F.post self.now.expr) }
        ensures { Reads (spec.typed (expr self.now.depth) (pattern self.now.depth) tokens.old) result tokens.new }
    {
        expect(tokens, Ahead::Colon)?;
        let found = type_tree(self.alloc, tokens)?;
        Ok(Some(Boxed::new(self.alloc, found)?))
    }

    /// ('val' | 'var') id [':' Type] '=' Expr
    #[tactic(auto, unfolding(crate::specs::Rules::local))]
    pub fn local(&self, tokens: &mut Cursor<'_>) -> Result<Stat, Stopped>
        requires { Nests expr self.now.depth (F.pre self.now.expr) (F.post self.now.expr) }
        ensures { Reads (spec.local (expr self.now.depth) (pattern self.now.depth) tokens.old) result tokens.new }
    {
        let (binding, start) = binding(tokens)?;
        let name = name(self.alloc, tokens)?;
        let ty = if tokens.offers(Ahead::Colon) {
            self.typed(tokens)?
        } else {
            None
        };
        expect(tokens, Ahead::Equals)?;
        let value = self.expr(tokens)?;
        let span = join(start, expr_span(&value));
        Ok(Stat::Local {
            binding,
            name,
            ty,
            value: Boxed::new(self.alloc, value)?,
            span,
        })
    }

    /// Expr, as a statement.
    #[tactic(auto, unfolding(crate::specs::Rules::expr_as_stat))]
    pub fn expr_as_stat(&self, tokens: &mut Cursor<'_>) -> Result<Stat, Stopped>
        requires { Nests expr self.now.depth (F.pre self.now.expr) (F.post self.now.expr) }
        ensures { Reads (spec.expr_as_stat (expr self.now.depth) (pattern self.now.depth) tokens.old) result tokens.new }
    {
        Ok(Stat::Expr(self.expr(tokens)?))
    }

    /// Stat ::= ('val' | 'var') id [':' Type] '=' Expr | Expr
    #[tactic(auto, unfolding(crate::specs::Rules::stat))]
    pub fn stat(&self, tokens: &mut Cursor<'_>) -> Result<Stat, Stopped>
        requires { Nests expr self.now.depth (F.pre self.now.expr) (F.post self.now.expr) }
        ensures { Reads (spec.stat (expr self.now.depth) (pattern self.now.depth) tokens.old) result tokens.new }
    {
        if begins_binding(tokens.ahead()) {
            self.local(tokens)
        } else {
            self.expr_as_stat(tokens)
        }
    }

    /// A separator between statements.
    #[tactic(auto, unfolding(crate::specs::Rules::apart))]
    pub fn apart(&self, tokens: &mut Cursor<'_>) -> Result<Option<(Stat, bool)>, Stopped>
        requires { Nests expr self.now.depth (F.pre self.now.expr) (F.post self.now.expr) }
        ensures { Reads (spec.apart (expr self.now.depth) (pattern self.now.depth) tokens.old) result tokens.new }
    {
        separator(tokens)?;
        Ok(None)
    }

    /// A statement, and whether nothing was held behind it.
    #[tactic(auto, unfolding(crate::specs::Rules::stat_item))]
    pub fn stat_item(&self, tokens: &mut Cursor<'_>) -> Result<Option<(Stat, bool)>, Stopped>
        requires { Nests expr self.now.depth (F.pre self.now.expr) (F.post self.now.expr) }
        ensures { Reads (spec.stat_item (expr self.now.depth) (pattern self.now.depth) tokens.old) result tokens.new }
    {
        let found = self.stat(tokens)?;
        let clean = behind_item(tokens, stat_ends_in_new(&found))?;
        Ok(Some((found, clean)))
    }

    /// A statement, or a separator between statements.
    #[tactic(auto, unfolding(crate::specs::Rules::block_item))]
    pub fn block_item(&self, tokens: &mut Cursor<'_>) -> Result<Option<(Stat, bool)>, Stopped>
        requires { Nests expr self.now.depth (F.pre self.now.expr) (F.post self.now.expr) }
        ensures { Reads (spec.block_item (expr self.now.depth) (pattern self.now.depth) tokens.old) result tokens.new }
    {
        if separates(tokens.ahead()) {
            self.apart(tokens)
        } else {
            self.stat_item(tokens)
        }
    }

    /// Seq(Stat)
    #[tactic(auto, unfolding(crate::specs::Rules::stats))]
    pub fn stats(&self, tokens: &mut Cursor<'_>) -> Result<(bool, Items<Stat>), Stopped>
        requires { Nests expr self.now.depth (F.pre self.now.expr) (F.post self.now.expr) }
        ensures { Reads (spec.stats (expr self.now.depth) (pattern self.now.depth) tokens.old) result tokens.new }
    {
        let mut found = Items::new(self.alloc);
        let mut apart = true;
        'turn: while goes_item(apart, tokens) {
            match self.block_item(tokens)? {
                Some((stat, clean)) => {
                    found.push(stat)?;
                    apart = !clean;
                }
                None => apart = true,
            }
        }
        Ok((apart, found))
    }

    /// Block ::= Seq(Stat)
    #[tactic(auto, unfolding(crate::specs::Rules::block, crate::specs::Reading::absorb))]
    pub fn block(&self, tokens: &mut Cursor<'_>) -> Result<Block, Stopped>
        requires { Nests expr self.now.depth (F.pre self.now.expr) (F.post self.now.expr) }
        ensures { Reads (spec.block (expr self.now.depth) (pattern self.now.depth) tokens.old) result tokens.new }
    {
        let _clean = tokens.absorb();
        let (_, stats) = self.stats(tokens)?;
        Ok(Block { stats })
    }

    /// '{' Block '}', and where it stands.
    #[tactic(auto, unfolding(crate::specs::Rules::braces))]
    pub fn braces(&self, tokens: &mut Cursor<'_>) -> Result<(Block, Span), Stopped>
        requires { Nests expr self.now.depth (F.pre self.now.expr) (F.post self.now.expr) }
        ensures { Reads (spec.braces (expr self.now.depth) (pattern self.now.depth) tokens.old) result tokens.new }
    {
        let start = expect(tokens, Ahead::OpenBrace)?;
        let found = self.block(tokens)?;
        let end = expect(tokens, Ahead::CloseBrace)?;
        Ok((found, join(start, end)))
    }
}
