//! Patterns that are closed by themselves.

ghost use Rattle.std.specs.Prelude.{◌≡◌};
ghost use Rattle.sl_parse_expr.specs.Nests.{Nests};
ghost use Rattle.sl_parse_expr.specs.PatternRules.{pattern};
ghost use Rattle.sl_parse_expr.specs.PatternRules as spec;
ghost use Rattle.sl_parse_expr.specs.Reading.{Reads};

use crate::ahead::Ahead;
use crate::cursor::Cursor;
use crate::pattern_grammar::PatternGrammar;
use crate::spans::{join, literal_span};
use crate::stopped::Stopped;
use crate::tokens::{expect, literal, name};
use sl_ast::{Ident, PatS, Pattern};
use sl_text::Span;
use sqlite_items::{Boxed, Items};
use std::alloc::Global;

impl<F: Fn(Global, &mut Cursor<'_>, usize) -> Result<Pattern, Stopped>> PatternGrammar<F> {
    /// ',' Pattern
    #[tactic(auto, unfolding(crate::specs::PatternRules::next_part))]
    pub fn next_part(&self, tokens: &mut Cursor<'_>) -> Result<Pattern, Stopped>
        requires { Nests pattern self.now.depth (F.pre self.now.pattern) (F.post self.now.pattern) }
        ensures { Reads (spec.next_part (pattern self.now.depth) tokens.old) result tokens.new }
    {
        expect(tokens, Ahead::Comma)?;
        self.pattern(tokens)
    }

    /// ')' of an empty list, and where it stands.
    #[tactic(auto, unfolding(crate::specs::PatternRules::no_parts))]
    pub fn no_parts(&self, tokens: &mut Cursor<'_>) -> Result<(Items<Pattern>, Span), Stopped>
        requires { Nests pattern self.now.depth (F.pre self.now.pattern) (F.post self.now.pattern) }
        ensures { Reads (spec.no_parts (pattern self.now.depth) tokens.old) result tokens.new }
    {
        let end = expect(tokens, Ahead::CloseParen)?;
        Ok((Items::new(self.alloc), end))
    }

    /// Pattern {',' Pattern} ')', and where the parenthesis stands.
    #[tactic(auto, unfolding(crate::specs::PatternRules::some_parts))]
    pub fn some_parts(&self, tokens: &mut Cursor<'_>) -> Result<(Items<Pattern>, Span), Stopped>
        requires { Nests pattern self.now.depth (F.pre self.now.pattern) (F.post self.now.pattern) }
        ensures { Reads (spec.some_parts (pattern self.now.depth) tokens.old) result tokens.new }
    {
        let first = self.pattern(tokens)?;
        let mut found = Items::new(self.alloc);
        found.push(first)?;
        let parts = self.more_parts(tokens, found)?;
        let end = expect(tokens, Ahead::CloseParen)?;
        Ok((parts, end))
    }

    /// {',' Pattern}, behind these patterns.
    #[tactic(auto, unfolding(crate::specs::PatternRules::more_parts))]
    pub fn more_parts(
        &self,
        tokens: &mut Cursor<'_>,
        first: Items<Pattern>,
    ) -> Result<Items<Pattern>, Stopped>
        requires { Nests pattern self.now.depth (F.pre self.now.pattern) (F.post self.now.pattern) }
        ensures { Reads (spec.more_parts (pattern self.now.depth) first tokens.old) result tokens.new }
    {
        let mut found = first;
        'turn: while tokens.offers(Ahead::Comma) {
            found.push(self.next_part(tokens)?)?;
        }
        Ok(found)
    }

    /// '(' [Pattern {',' Pattern}] ')', behind the name of a class.
    #[tactic(auto, unfolding(crate::specs::PatternRules::constructor))]
    pub fn constructor(&self, tokens: &mut Cursor<'_>, class: Ident) -> Result<PatS, Stopped>
        requires { Nests pattern self.now.depth (F.pre self.now.pattern) (F.post self.now.pattern) }
        ensures { Reads (spec.constructor (pattern self.now.depth) class tokens.old) result tokens.new }
    {
        expect(tokens, Ahead::OpenParen)?;
        let (parts, end) = if tokens.is_at(Ahead::CloseParen) {
            self.no_parts(tokens)?
        } else {
            self.some_parts(tokens)?
        };
        let span = join(class.span, end);
        Ok(PatS::Id {
            name: class,
            parts: Some(parts),
            span,
        })
    }

    /// '(' Pattern ')'
    #[tactic(auto, unfolding(crate::specs::PatternRules::inside))]
    pub fn inside(&self, tokens: &mut Cursor<'_>) -> Result<PatS, Stopped>
        requires { Nests pattern self.now.depth (F.pre self.now.pattern) (F.post self.now.pattern) }
        ensures { Reads (spec.inside (pattern self.now.depth) tokens.old) result tokens.new }
    {
        let start = expect(tokens, Ahead::OpenParen)?;
        let found = self.pattern(tokens)?;
        let end = expect(tokens, Ahead::CloseParen)?;
        Ok(PatS::Parens {
            of: Boxed::new(self.alloc, found)?,
            span: join(start, end),
        })
    }

    /// '-' literal
    #[tactic(auto, unfolding(crate::specs::PatternRules::minus))]
    pub fn minus(&self, tokens: &mut Cursor<'_>) -> Result<PatS, Stopped>
        requires { Nests pattern self.now.depth (F.pre self.now.pattern) (F.post self.now.pattern) }
        ensures { Reads (spec.minus (pattern self.now.depth) tokens.old) result tokens.new }
    {
        let start = expect(tokens, Ahead::Minus)?;
        let found = literal(self.alloc, tokens)?;
        let span = join(start, literal_span(&found));
        Ok(PatS::Literal {
            minus: true,
            literal: found,
            span,
        })
    }

    /// literal
    #[tactic(auto, unfolding(crate::specs::PatternRules::no_minus))]
    pub fn no_minus(&self, tokens: &mut Cursor<'_>) -> Result<PatS, Stopped>
        requires { Nests pattern self.now.depth (F.pre self.now.pattern) (F.post self.now.pattern) }
        ensures { Reads (spec.no_minus (pattern self.now.depth) tokens.old) result tokens.new }
    {
        let found = literal(self.alloc, tokens)?;
        let span = literal_span(&found);
        Ok(PatS::Literal {
            minus: false,
            literal: found,
            span,
        })
    }

    /// ['-'] literal | '(' Pattern ')'
    #[tactic(auto, unfolding(crate::specs::PatternRules::closed))]
    pub fn closed(&self, tokens: &mut Cursor<'_>) -> Result<PatS, Stopped>
        requires { Nests pattern self.now.depth (F.pre self.now.pattern) (F.post self.now.pattern) }
        ensures { Reads (spec.closed (pattern self.now.depth) tokens.old) result tokens.new }
    {
        if tokens.is_at(Ahead::OpenParen) {
            self.inside(tokens)
        } else if tokens.is_at(Ahead::Minus) {
            self.minus(tokens)
        } else {
            self.no_minus(tokens)
        }
    }

    /// '_'
    #[tactic(auto, unfolding(crate::specs::PatternRules::anything))]
    pub fn anything(&self, tokens: &mut Cursor<'_>) -> Result<PatS, Stopped>
        requires { Nests pattern self.now.depth (F.pre self.now.pattern) (F.post self.now.pattern) }
        ensures { Reads (spec.anything (pattern self.now.depth) tokens.old) result tokens.new }
    {
        Ok(PatS::Any(expect(tokens, Ahead::Underscore)?))
    }

    /// id ['(' [Pattern {',' Pattern}] ')']
    #[tactic(auto, unfolding(crate::specs::PatternRules::called))]
    pub fn called(&self, tokens: &mut Cursor<'_>) -> Result<PatS, Stopped>
        requires { Nests pattern self.now.depth (F.pre self.now.pattern) (F.post self.now.pattern) }
        ensures { Reads (spec.called (pattern self.now.depth) tokens.old) result tokens.new }
    {
        let class = name(self.alloc, tokens)?;
        if tokens.offers(Ahead::OpenParen) {
            self.constructor(tokens, class)
        } else {
            let span = class.span;
            Ok(PatS::Id {
                name: class,
                parts: None,
                span,
            })
        }
    }

    /// PatS ::= '_' | ['-'] literal | id ['(' [Pattern {',' Pattern}] ')'] | '(' Pattern ')'
    #[tactic(auto, unfolding(crate::specs::PatternRules::simple_pattern))]
    pub fn simple_pattern(&self, tokens: &mut Cursor<'_>) -> Result<PatS, Stopped>
        requires { Nests pattern self.now.depth (F.pre self.now.pattern) (F.post self.now.pattern) }
        ensures { Reads (spec.simple_pattern (pattern self.now.depth) tokens.old) result tokens.new }
    {
        if tokens.is_at(Ahead::Id) {
            self.called(tokens)
        } else if tokens.is_at(Ahead::Underscore) {
            self.anything(tokens)
        } else {
            self.closed(tokens)
        }
    }
}
