//! Parameters of classes (SLS 5.3).

ghost use Rattle.std.specs.Prelude.{◌≡◌};
ghost use Rattle.sl_parse_expr.specs.Reading.{Reads};
ghost use Rattle.sl_parse_tmpl.specs.Rules as spec;
ghost use Rattle.sl_parse_tmpl.specs.Trees as trees;

use crate::values::typed;
use sl_ast::{ClassParam, ParamMember, Params};
use sl_parse_expr::{
    Ahead, Cursor, Stopped, begins_binding, binding, expect, join, name, type_span,
};
use sl_text::Span;
use sqlite_items::Items;
use std::alloc::Global;

// 'private' ('val' | 'var'), and where it begins.
#[tactic(auto, unfolding(crate::specs::Rules::private_member))]
fn private_member(tokens: &mut Cursor<'_>) -> Result<Option<(ParamMember, Span)>, Stopped>
    ensures { Reads (spec.private_member tokens.old) result tokens.new }
{
    let start = expect(tokens, Ahead::Private)?;
    let (binding, _) = binding(tokens)?;
    let is_private = true;
    Ok(Some((
        ParamMember {
            is_private,
            binding,
        },
        start,
    )))
}

// 'val' | 'var', and where it stands.
#[tactic(auto, unfolding(crate::specs::Rules::open_member))]
fn open_member(tokens: &mut Cursor<'_>) -> Result<Option<(ParamMember, Span)>, Stopped>
    ensures { Reads (spec.open_member tokens.old) result tokens.new }
{
    let (binding, start) = binding(tokens)?;
    let is_private = false;
    Ok(Some((
        ParamMember {
            is_private,
            binding,
        },
        start,
    )))
}

// Which member a parameter is, and where it begins.
fn begun(member: Option<(ParamMember, Span)>, name: Span) -> (Option<ParamMember>, Span)
    ensures { result ≡ trees.begun member name }
{
    match member {
        Some((member, start)) => (Some(member), start),
        None => (None, name),
    }
}

// A name and its type, behind the words that make it a member.
#[tactic(auto, unfolding(crate::specs::Rules::plain_param))]
fn plain_param(
    alloc: Global,
    tokens: &mut Cursor<'_>,
    member: Option<(ParamMember, Span)>,
) -> Result<ClassParam, Stopped>
    ensures { Reads (spec.plain_param member tokens.old) result tokens.new }
{
    let name = name(alloc, tokens)?;
    let ty = typed(alloc, tokens)?;
    let (member, start) = begun(member, name.span);
    let span = join(start, type_span(&ty));
    Ok(ClassParam {
        member,
        name,
        ty,
        span,
    })
}

// 'private' ('val' | 'var') id ':' Type
#[tactic(auto, unfolding(crate::specs::Rules::private_param))]
fn private_param(alloc: Global, tokens: &mut Cursor<'_>) -> Result<ClassParam, Stopped>
    ensures { Reads (spec.private_param tokens.old) result tokens.new }
{
    let member = private_member(tokens)?;
    plain_param(alloc, tokens, member)
}

// ('val' | 'var') id ':' Type
#[tactic(auto, unfolding(crate::specs::Rules::open_param))]
fn open_param(alloc: Global, tokens: &mut Cursor<'_>) -> Result<ClassParam, Stopped>
    ensures { Reads (spec.open_param tokens.old) result tokens.new }
{
    let member = open_member(tokens)?;
    plain_param(alloc, tokens, member)
}

// ClassParam ::= [['private'] ('val' | 'var')] id ':' Type
#[tactic(auto, unfolding(crate::specs::Rules::class_param))]
fn class_param(alloc: Global, tokens: &mut Cursor<'_>) -> Result<ClassParam, Stopped>
    ensures { Reads (spec.class_param tokens.old) result tokens.new }
{
    if tokens.is_at(Ahead::Private) {
        private_param(alloc, tokens)
    } else if begins_binding(tokens.ahead()) {
        open_param(alloc, tokens)
    } else {
        plain_param(alloc, tokens, None)
    }
}

// ',' ClassParam
#[tactic(auto, unfolding(crate::specs::Rules::next_class_param))]
fn next_class_param(alloc: Global, tokens: &mut Cursor<'_>) -> Result<ClassParam, Stopped>
    ensures { Reads (spec.next_class_param tokens.old) result tokens.new }
{
    expect(tokens, Ahead::Comma)?;
    class_param(alloc, tokens)
}

// {',' ClassParam}, behind these parameters.
#[tactic(auto, unfolding(crate::specs::Rules::more_class_params))]
fn more_class_params(
    alloc: Global,
    tokens: &mut Cursor<'_>,
    first: Items<ClassParam>,
) -> Result<Items<ClassParam>, Stopped>
    ensures { Reads (spec.more_class_params first tokens.old) result tokens.new }
{
    let mut found = first;
    'turn: while tokens.offers(Ahead::Comma) {
        found.push(next_class_param(alloc, tokens)?)?;
    }
    Ok(found)
}

// ')' of an empty list, and where it stands.
#[tactic(auto, unfolding(crate::specs::Rules::no_class_params))]
fn no_class_params(
    alloc: Global,
    tokens: &mut Cursor<'_>,
) -> Result<(Items<ClassParam>, Span), Stopped>
    ensures { Reads (spec.no_class_params tokens.old) result tokens.new }
{
    let end = expect(tokens, Ahead::CloseParen)?;
    Ok((Items::new(alloc), end))
}

// ClassParam {',' ClassParam} ')', and where the parenthesis stands.
#[tactic(auto, unfolding(crate::specs::Rules::some_class_params))]
fn some_class_params(
    alloc: Global,
    tokens: &mut Cursor<'_>,
) -> Result<(Items<ClassParam>, Span), Stopped>
    ensures { Reads (spec.some_class_params tokens.old) result tokens.new }
{
    let first = class_param(alloc, tokens)?;
    let mut found = Items::new(alloc);
    found.push(first)?;
    let params = more_class_params(alloc, tokens, found)?;
    let end = expect(tokens, Ahead::CloseParen)?;
    Ok((params, end))
}

// Params ::= '(' [ClassParam {',' ClassParam}] ')'
#[tactic(auto, unfolding(crate::specs::Rules::class_params))]
fn class_params(alloc: Global, tokens: &mut Cursor<'_>) -> Result<Option<Params>, Stopped>
    ensures { Reads (spec.class_params tokens.old) result tokens.new }
{
    let start = expect(tokens, Ahead::OpenParen)?;
    let (params, end) = if tokens.is_at(Ahead::CloseParen) {
        no_class_params(alloc, tokens)?
    } else {
        some_class_params(alloc, tokens)?
    };
    let span = join(start, end);
    Ok(Some(Params { params, span }))
}

/// Parameters in parentheses, where they stand.
#[tactic(auto, unfolding(crate::specs::Rules::optional_class_params))]
pub fn optional_class_params(
    alloc: Global,
    tokens: &mut Cursor<'_>,
) -> Result<Option<Params>, Stopped>
    ensures { Reads (spec.optional_class_params tokens.old) result tokens.new }
{
    if tokens.offers(Ahead::OpenParen) {
        class_params(alloc, tokens)
    } else {
        Ok(None)
    }
}
