//! Patterns with a type or a name, and alternatives.

ghost use Rattle.std.specs.Prelude.{◌≡◌};
ghost use Rattle.sl_parse_expr.specs.Nests.{Nests};
ghost use Rattle.sl_parse_expr.specs.PatternRules.{pattern};
ghost use Rattle.sl_parse_expr.specs.PatternRules as spec;
ghost use Rattle.sl_parse_expr.specs.Reading.{Reads};

use crate::ahead::Ahead;
use crate::cursor::Cursor;
use crate::pattern_grammar::PatternGrammar;
use crate::spans::{join, last_pat, pat_span, simple_pattern_span, type_span, wildcard_span};
use crate::starts::offers_name;
use crate::stopped::Stopped;
use crate::tokens::{expect, name};
use crate::types::type_tree;
use sl_ast::{Ident, Pat, PatS, Pattern, Wildcard};
use sqlite_items::Items;
use std::alloc::Global;

impl<F: Fn(Global, &mut Cursor<'_>, usize) -> Result<Pattern, Stopped>> PatternGrammar<F> {
    /// ':' Type, behind a name or `_`.
    #[tactic(auto, unfolding(crate::specs::PatternRules::of_type))]
    pub fn of_type(&self, tokens: &mut Cursor<'_>, value: Wildcard) -> Result<Pat, Stopped>
        requires { Nests pattern self.now.depth (F.pre self.now.pattern) (F.post self.now.pattern) }
        ensures { Reads (spec.of_type (pattern self.now.depth) value tokens.old) result tokens.new }
    {
        expect(tokens, Ahead::Colon)?;
        let ty = type_tree(self.alloc, tokens)?;
        let span = join(wildcard_span(&value), type_span(&ty));
        Ok(Pat::Typed {
            name: value,
            ty,
            span,
        })
    }

    /// '@' PatS, behind a name.
    #[tactic(auto, unfolding(crate::specs::PatternRules::bound))]
    pub fn bound(&self, tokens: &mut Cursor<'_>, value: Ident) -> Result<Pat, Stopped>
        requires { Nests pattern self.now.depth (F.pre self.now.pattern) (F.post self.now.pattern) }
        ensures { Reads (spec.bound (pattern self.now.depth) value tokens.old) result tokens.new }
    {
        expect(tokens, Ahead::At)?;
        let of = self.simple_pattern(tokens)?;
        let span = join(value.span, simple_pattern_span(&of));
        Ok(Pat::Named {
            name: value,
            of,
            span,
        })
    }

    /// '(' [Pattern {',' Pattern}] ')', behind a name, as an alternative.
    #[tactic(auto, unfolding(crate::specs::PatternRules::built))]
    pub fn built(&self, tokens: &mut Cursor<'_>, class: Ident) -> Result<Pat, Stopped>
        requires { Nests pattern self.now.depth (F.pre self.now.pattern) (F.post self.now.pattern) }
        ensures { Reads (spec.built (pattern self.now.depth) class tokens.old) result tokens.new }
    {
        Ok(Pat::Simple(self.constructor(tokens, class)?))
    }

    /// What stands behind a name: a type, a pattern bound to it, or the parts of a constructor.
    #[tactic(auto, unfolding(crate::specs::PatternRules::behind_name))]
    pub fn behind_name(&self, tokens: &mut Cursor<'_>, value: Ident) -> Result<Pat, Stopped>
        requires { Nests pattern self.now.depth (F.pre self.now.pattern) (F.post self.now.pattern) }
        ensures { Reads (spec.behind_name (pattern self.now.depth) value tokens.old) result tokens.new }
    {
        if tokens.is_at(Ahead::Colon) {
            self.of_type(tokens, Wildcard::Id(value))
        } else if tokens.is_at(Ahead::At) {
            self.bound(tokens, value)
        } else {
            self.built(tokens, value)
        }
    }

    /// An alternative that begins with a name.
    #[tactic(auto, unfolding(crate::specs::PatternRules::by_name))]
    pub fn by_name(&self, tokens: &mut Cursor<'_>) -> Result<Pat, Stopped>
        requires { Nests pattern self.now.depth (F.pre self.now.pattern) (F.post self.now.pattern) }
        ensures { Reads (spec.by_name (pattern self.now.depth) tokens.old) result tokens.new }
    {
        let value = name(self.alloc, tokens)?;
        if offers_name(tokens) {
            self.behind_name(tokens, value)
        } else {
            let span = value.span;
            Ok(Pat::Simple(PatS::Id {
                name: value,
                parts: None,
                span,
            }))
        }
    }

    /// '_' [':' Type]
    #[tactic(auto, unfolding(crate::specs::PatternRules::by_underscore))]
    pub fn by_underscore(&self, tokens: &mut Cursor<'_>) -> Result<Pat, Stopped>
        requires { Nests pattern self.now.depth (F.pre self.now.pattern) (F.post self.now.pattern) }
        ensures { Reads (spec.by_underscore (pattern self.now.depth) tokens.old) result tokens.new }
    {
        let span = expect(tokens, Ahead::Underscore)?;
        if tokens.offers(Ahead::Colon) {
            self.of_type(tokens, Wildcard::Any(span))
        } else {
            Ok(Pat::Simple(PatS::Any(span)))
        }
    }

    /// A literal or a pattern in parentheses, as an alternative.
    #[tactic(auto, unfolding(crate::specs::PatternRules::by_itself))]
    pub fn by_itself(&self, tokens: &mut Cursor<'_>) -> Result<Pat, Stopped>
        requires { Nests pattern self.now.depth (F.pre self.now.pattern) (F.post self.now.pattern) }
        ensures { Reads (spec.by_itself (pattern self.now.depth) tokens.old) result tokens.new }
    {
        Ok(Pat::Simple(self.closed(tokens)?))
    }

    /// Pat ::= (id | '_') ':' Type | id '@' PatS | PatS
    #[tactic(auto, unfolding(crate::specs::PatternRules::alternative))]
    pub fn alternative(&self, tokens: &mut Cursor<'_>) -> Result<Pat, Stopped>
        requires { Nests pattern self.now.depth (F.pre self.now.pattern) (F.post self.now.pattern) }
        ensures { Reads (spec.alternative (pattern self.now.depth) tokens.old) result tokens.new }
    {
        if tokens.is_at(Ahead::Id) {
            self.by_name(tokens)
        } else if tokens.is_at(Ahead::Underscore) {
            self.by_underscore(tokens)
        } else {
            self.by_itself(tokens)
        }
    }

    /// '|' Pat
    #[tactic(auto, unfolding(crate::specs::PatternRules::next_alternative))]
    pub fn next_alternative(&self, tokens: &mut Cursor<'_>) -> Result<Pat, Stopped>
        requires { Nests pattern self.now.depth (F.pre self.now.pattern) (F.post self.now.pattern) }
        ensures { Reads (spec.next_alternative (pattern self.now.depth) tokens.old) result tokens.new }
    {
        expect(tokens, Ahead::Bar)?;
        self.alternative(tokens)
    }

    /// {'|' Pat}
    #[tactic(auto, unfolding(crate::specs::PatternRules::more_alternatives))]
    pub fn more_alternatives(&self, tokens: &mut Cursor<'_>) -> Result<Items<Pat>, Stopped>
        requires { Nests pattern self.now.depth (F.pre self.now.pattern) (F.post self.now.pattern) }
        ensures { Reads (spec.more_alternatives (pattern self.now.depth) tokens.old) result tokens.new }
    {
        let mut found = Items::new(self.alloc);
        'turn: while tokens.offers(Ahead::Bar) {
            found.push(self.next_alternative(tokens)?)?;
        }
        Ok(found)
    }

    /// Pattern ::= Pat {'|' Pat}, over the patterns inside.
    #[tactic(auto, unfolding(crate::specs::PatternRules::any_pattern))]
    pub fn any_pattern(&self, tokens: &mut Cursor<'_>) -> Result<Pattern, Stopped>
        requires { Nests pattern self.now.depth (F.pre self.now.pattern) (F.post self.now.pattern) }
        ensures { Reads (spec.any_pattern (pattern self.now.depth) tokens.old) result tokens.new }
    {
        let first = self.alternative(tokens)?;
        let rest = self.more_alternatives(tokens)?;
        let at = pat_span(&first);
        let span = join(at, last_pat(at, &rest));
        Ok(Pattern { first, rest, span })
    }
}
