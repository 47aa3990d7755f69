//! Parameters of methods (SLS 4.6).

ghost use Rattle.std.specs.Prelude.{◌≡◌};
ghost use Rattle.sl_parse_expr.specs.Reading.{Reads};
ghost use Rattle.sl_parse_tmpl.specs.Rules as spec;

use crate::values::typed;
use sl_ast::Param;
use sl_parse_expr::{Ahead, Cursor, Stopped, expect, join, name, type_span};
use sqlite_items::Items;
use std::alloc::Global;

// id ':' Type
#[tactic(auto, unfolding(crate::specs::Rules::param))]
fn param(alloc: Global, tokens: &mut Cursor<'_>) -> Result<Param, Stopped>
    ensures { Reads (spec.param tokens.old) result tokens.new }
{
    let name = name(alloc, tokens)?;
    let ty = typed(alloc, tokens)?;
    let span = join(name.span, type_span(&ty));
    Ok(Param { name, ty, span })
}

// ',' id ':' Type
#[tactic(auto, unfolding(crate::specs::Rules::next_param))]
fn next_param(alloc: Global, tokens: &mut Cursor<'_>) -> Result<Param, Stopped>
    ensures { Reads (spec.next_param tokens.old) result tokens.new }
{
    expect(tokens, Ahead::Comma)?;
    param(alloc, tokens)
}

// {',' id ':' Type}, behind these parameters.
#[tactic(auto, unfolding(crate::specs::Rules::more_params))]
fn more_params(
    alloc: Global,
    tokens: &mut Cursor<'_>,
    first: Items<Param>,
) -> Result<Items<Param>, Stopped>
    ensures { Reads (spec.more_params first tokens.old) result tokens.new }
{
    let mut found = first;
    'turn: while tokens.offers(Ahead::Comma) {
        found.push(next_param(alloc, tokens)?)?;
    }
    Ok(found)
}

// ')' of an empty list.
#[tactic(auto, unfolding(crate::specs::Rules::no_params))]
fn no_params(alloc: Global, tokens: &mut Cursor<'_>) -> Result<Option<Items<Param>>, Stopped>
    ensures { Reads (spec.no_params tokens.old) result tokens.new }
{
    expect(tokens, Ahead::CloseParen)?;
    Ok(Some(Items::new(alloc)))
}

// id ':' Type {',' id ':' Type} ')'
#[tactic(auto, unfolding(crate::specs::Rules::some_params))]
fn some_params(alloc: Global, tokens: &mut Cursor<'_>) -> Result<Option<Items<Param>>, Stopped>
    ensures { Reads (spec.some_params tokens.old) result tokens.new }
{
    let first = param(alloc, tokens)?;
    let mut found = Items::new(alloc);
    found.push(first)?;
    let params = more_params(alloc, tokens, found)?;
    expect(tokens, Ahead::CloseParen)?;
    Ok(Some(params))
}

// '(' [id ':' Type {',' id ':' Type}] ')'
#[tactic(auto, unfolding(crate::specs::Rules::params))]
fn params(alloc: Global, tokens: &mut Cursor<'_>) -> Result<Option<Items<Param>>, Stopped>
    ensures { Reads (spec.params tokens.old) result tokens.new }
{
    expect(tokens, Ahead::OpenParen)?;
    if tokens.is_at(Ahead::CloseParen) {
        no_params(alloc, tokens)
    } else {
        some_params(alloc, tokens)
    }
}

/// Parameters in parentheses, where they stand.
#[tactic(auto, unfolding(crate::specs::Rules::optional_params))]
pub fn optional_params(
    alloc: Global,
    tokens: &mut Cursor<'_>,
) -> Result<Option<Items<Param>>, Stopped>
    ensures { Reads (spec.optional_params tokens.old) result tokens.new }
{
    if tokens.offers(Ahead::OpenParen) {
        params(alloc, tokens)
    } else {
        Ok(None)
    }
}
