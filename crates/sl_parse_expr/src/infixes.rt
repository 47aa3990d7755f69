//! Infix expressions.

ghost use Rattle.std.specs.Prelude.{◌≡◌};
ghost use Rattle.sl_parse_expr.specs.Levels.{expr};
ghost use Rattle.sl_parse_expr.specs.Nests.{Nests};
ghost use Rattle.sl_parse_expr.specs.PatternRules.{pattern};
ghost use Rattle.sl_parse_expr.specs.Reading.{Reads};
ghost use Rattle.sl_parse_expr.specs.Rules as spec;

use crate::ahead::Ahead;
use crate::cursor::Cursor;
use crate::grammar::Grammar;
use crate::spans::{join, last_operation, prefix_span, simple_span};
use crate::starts::{begins_sign, goes_operation};
use crate::stopped::Stopped;
use crate::tokens::{expect, operator, sign};
use sl_ast::{Expr, Infix, Operation, Prefix};
use sqlite_items::Items;
use std::alloc::Global;

impl<F: Fn(Global, &mut Cursor<'_>, usize) -> Result<Expr, Stopped>> Grammar<F> {
    /// ('-' | '+' | '!' | '~') Simple
    #[tactic(auto, unfolding(crate::specs::Rules::signed))]
    pub fn signed(&self, tokens: &mut Cursor<'_>) -> Result<Prefix, Stopped>
        requires { Nests expr self.now.depth (F.pre self.now.expr) (F.post self.now.expr) }
        ensures { Reads (spec.signed (expr self.now.depth) (pattern self.now.depth) tokens.old) result tokens.new }
    {
        let (sign, start) = sign(tokens)?;
        let simple = self.simple(tokens)?;
        let span = join(start, simple_span(&simple));
        Ok(Prefix {
            sign: Some(sign),
            simple,
            span,
        })
    }

    /// Simple
    #[tactic(auto, unfolding(crate::specs::Rules::unsigned))]
    pub fn unsigned(&self, tokens: &mut Cursor<'_>) -> Result<Prefix, Stopped>
        requires { Nests expr self.now.depth (F.pre self.now.expr) (F.post self.now.expr) }
        ensures { Reads (spec.unsigned (expr self.now.depth) (pattern self.now.depth) tokens.old) result tokens.new }
    {
        let simple = self.simple(tokens)?;
        let span = simple_span(&simple);
        Ok(Prefix {
            sign: None,
            simple,
            span,
        })
    }

    /// Prefix ::= ['-' | '+' | '!' | '~'] Simple
    #[tactic(auto, unfolding(crate::specs::Rules::prefix))]
    pub fn prefix(&self, tokens: &mut Cursor<'_>) -> Result<Prefix, Stopped>
        requires { Nests expr self.now.depth (F.pre self.now.expr) (F.post self.now.expr) }
        ensures { Reads (spec.prefix (expr self.now.depth) (pattern self.now.depth) tokens.old) result tokens.new }
    {
        if begins_sign(tokens.ahead()) {
            self.signed(tokens)
        } else {
            self.unsigned(tokens)
        }
    }

    /// nl Prefix
    #[tactic(auto, unfolding(crate::specs::Rules::line_operand))]
    pub fn line_operand(&self, tokens: &mut Cursor<'_>) -> Result<Prefix, Stopped>
        requires { Nests expr self.now.depth (F.pre self.now.expr) (F.post self.now.expr) }
        ensures { Reads (spec.line_operand (expr self.now.depth) (pattern self.now.depth) tokens.old) result tokens.new }
    {
        expect(tokens, Ahead::Newline)?;
        self.prefix(tokens)
    }

    /// [nl] Prefix
    #[tactic(auto, unfolding(crate::specs::Rules::operand))]
    pub fn operand(&self, tokens: &mut Cursor<'_>) -> Result<Prefix, Stopped>
        requires { Nests expr self.now.depth (F.pre self.now.expr) (F.post self.now.expr) }
        ensures { Reads (spec.operand (expr self.now.depth) (pattern self.now.depth) tokens.old) result tokens.new }
    {
        if tokens.is_at(Ahead::Newline) {
            self.line_operand(tokens)
        } else {
            self.prefix(tokens)
        }
    }

    /// op [nl] Prefix
    #[tactic(auto, unfolding(crate::specs::Rules::operation))]
    pub fn operation(&self, tokens: &mut Cursor<'_>) -> Result<Operation, Stopped>
        requires { Nests expr self.now.depth (F.pre self.now.expr) (F.post self.now.expr) }
        ensures { Reads (spec.operation (expr self.now.depth) (pattern self.now.depth) tokens.old) result tokens.new }
    {
        let operator = operator(self.alloc, tokens)?;
        let operand = self.operand(tokens)?;
        Ok(Operation { operator, operand })
    }

    /// {op [nl] Prefix}
    #[tactic(auto, unfolding(crate::specs::Rules::operations))]
    pub fn operations(&self, tokens: &mut Cursor<'_>) -> Result<Items<Operation>, Stopped>
        requires { Nests expr self.now.depth (F.pre self.now.expr) (F.post self.now.expr) }
        ensures { Reads (spec.operations (expr self.now.depth) (pattern self.now.depth) tokens.old) result tokens.new }
    {
        let mut found = Items::new(self.alloc);
        'turn: while goes_operation(tokens) {
            found.push(self.operation(tokens)?)?;
        }
        Ok(found)
    }

    /// Infix ::= Prefix {op [nl] Prefix}
    #[tactic(auto, unfolding(crate::specs::Rules::infix_expr))]
    pub fn infix_expr(&self, tokens: &mut Cursor<'_>) -> Result<Infix, Stopped>
        requires { Nests expr self.now.depth (F.pre self.now.expr) (F.post self.now.expr) }
        ensures { Reads (spec.infix_expr (expr self.now.depth) (pattern self.now.depth) tokens.old) result tokens.new }
    {
        let first = self.prefix(tokens)?;
        let rest = self.operations(tokens)?;
        let at = prefix_span(&first);
        let span = join(at, last_operation(at, &rest));
        Ok(Infix { first, rest, span })
    }
}
