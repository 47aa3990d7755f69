//! Templates (SLS 5.1).

ghost use Rattle.std.specs.Prelude.{◌≡◌};
ghost use Rattle.sl_parse_expr.specs.Reading.{Reads};
ghost use Rattle.sl_parse_expr.specs.Levels.{expr};
ghost use Rattle.sl_parse_expr.specs.PatternRules.{pattern};
ghost use Rattle.sl_parse_tmpl.specs.Rules as spec;

use crate::members::members;
use crate::spans::{end_of_body, end_of_parents};
use sl_ast::{Ident, Member, ParArgs, Parents, Template};
use sl_parse_expr::{Ahead, Cursor, Stopped, expect, name, read_args};
use sl_text::Span;
use sqlite_items::Items;
use std::alloc::Global;

// '{' Seq(Member) '}', and where the brace stands that closes it.
#[tactic(auto, unfolding(crate::specs::Rules::braces))]
fn braces(
    alloc: Global,
    tokens: &mut Cursor<'_>,
    depth: usize,
) -> Result<(Items<Member>, Span), Stopped>
    ensures { Reads (spec.braces (expr depth) (pattern depth) tokens.old) result tokens.new }
{
    expect(tokens, Ahead::OpenBrace)?;
    let (_, members) = members(alloc, tokens, depth)?;
    let end = expect(tokens, Ahead::CloseBrace)?;
    Ok((members, end))
}

// '{' Seq(Member) '}', with what was held before it gone.
#[tactic(auto, unfolding(crate::specs::Rules::some_body, sl_parse_expr::specs::Reading::absorb))]
fn some_body(
    alloc: Global,
    tokens: &mut Cursor<'_>,
    depth: usize,
) -> Result<Option<(Items<Member>, Span)>, Stopped>
    ensures { Reads (spec.some_body (expr depth) (pattern depth) tokens.old) result tokens.new }
{
    let _clean = tokens.absorb();
    Ok(Some(braces(alloc, tokens, depth)?))
}

// A body behind a line end that is held, if a brace stands there.
#[tactic(auto, unfolding(crate::specs::Rules::behind_line))]
fn behind_line(
    alloc: Global,
    tokens: &mut Cursor<'_>,
    depth: usize,
) -> Result<Option<(Items<Member>, Span)>, Stopped>
    ensures { Reads (spec.behind_line (expr depth) (pattern depth) tokens.old) result tokens.new }
{
    if tokens.is_at(Ahead::OpenBrace) {
        some_body(alloc, tokens, depth)
    } else {
        Ok(None)
    }
}

// [[nl] '{' Seq(Member) '}']
#[tactic(auto, unfolding(crate::specs::Rules::body))]
fn body(
    alloc: Global,
    tokens: &mut Cursor<'_>,
    depth: usize,
) -> Result<Option<(Items<Member>, Span)>, Stopped>
    ensures { Reads (spec.body (expr depth) (pattern depth) tokens.old) result tokens.new }
{
    if tokens.is_at(Ahead::OpenBrace) {
        some_body(alloc, tokens, depth)
    } else if tokens.offers(Ahead::Newline) {
        tokens.hold();
        behind_line(alloc, tokens, depth)
    } else {
        Ok(None)
    }
}

// ParArgs, as arguments that are there.
#[tactic(auto, unfolding(crate::specs::Rules::some_args))]
fn some_args(
    alloc: Global,
    tokens: &mut Cursor<'_>,
    depth: usize,
) -> Result<Option<ParArgs>, Stopped>
    ensures { Reads (spec.some_args (expr depth) (pattern depth) tokens.old) result tokens.new }
{
    Ok(Some(read_args(alloc, tokens, depth)?))
}

// [ParArgs]
#[tactic(auto, unfolding(crate::specs::Rules::optional_args))]
fn optional_args(
    alloc: Global,
    tokens: &mut Cursor<'_>,
    depth: usize,
) -> Result<Option<ParArgs>, Stopped>
    ensures { Reads (spec.optional_args (expr depth) (pattern depth) tokens.old) result tokens.new }
{
    if tokens.offers(Ahead::OpenParen) {
        some_args(alloc, tokens, depth)
    } else {
        Ok(None)
    }
}

// 'with' id
#[tactic(auto, unfolding(crate::specs::Rules::next_trait))]
fn next_trait(alloc: Global, tokens: &mut Cursor<'_>) -> Result<Ident, Stopped>
    ensures { Reads (spec.next_trait tokens.old) result tokens.new }
{
    expect(tokens, Ahead::With)?;
    name(alloc, tokens)
}

// {'with' id}
#[tactic(auto, unfolding(crate::specs::Rules::traits))]
fn traits(alloc: Global, tokens: &mut Cursor<'_>) -> Result<Items<Ident>, Stopped>
    ensures { Reads (spec.traits tokens.old) result tokens.new }
{
    let mut found = Items::new(alloc);
    'turn: while tokens.offers(Ahead::With) {
        found.push(next_trait(alloc, tokens)?)?;
    }
    Ok(found)
}

// 'extends' id [ParArgs] {'with' id}
#[tactic(auto, unfolding(crate::specs::Rules::parents))]
fn parents(alloc: Global, tokens: &mut Cursor<'_>, depth: usize) -> Result<Option<Parents>, Stopped>
    ensures { Reads (spec.parents (expr depth) (pattern depth) tokens.old) result tokens.new }
{
    expect(tokens, Ahead::Extends)?;
    let first = name(alloc, tokens)?;
    let args = optional_args(alloc, tokens, depth)?;
    let traits = traits(alloc, tokens)?;
    Ok(Some(Parents {
        first,
        args,
        traits,
    }))
}

// ['extends' id [ParArgs] {'with' id}]
#[tactic(auto, unfolding(crate::specs::Rules::optional_parents))]
fn optional_parents(
    alloc: Global,
    tokens: &mut Cursor<'_>,
    depth: usize,
) -> Result<Option<Parents>, Stopped>
    ensures { Reads (spec.optional_parents (expr depth) (pattern depth) tokens.old) result tokens.new }
{
    if tokens.offers(Ahead::Extends) {
        parents(alloc, tokens, depth)
    } else {
        Ok(None)
    }
}

/// A template behind what ends at `before`, and where it ends.
#[tactic(auto, unfolding(crate::specs::Rules::template))]
pub fn template(
    alloc: Global,
    tokens: &mut Cursor<'_>,
    depth: usize,
    before: Span,
) -> Result<(Template, Span), Stopped>
    ensures { Reads (spec.template (expr depth) (pattern depth) before tokens.old) result tokens.new }
{
    let parents = optional_parents(alloc, tokens, depth)?;
    let body = body(alloc, tokens, depth)?;
    let (body, end) = end_of_body(end_of_parents(before, &parents), body);
    Ok((Template { parents, body }, end))
}
