//! Members of templates (SLS 5.1).

ghost use Rattle.std.specs.Prelude.{◌≡◌};
ghost use Rattle.sl_parse_expr.specs.Reading.{Reads};
ghost use Rattle.sl_parse_expr.specs.Levels.{expr};
ghost use Rattle.sl_parse_expr.specs.PatternRules.{pattern};
ghost use Rattle.sl_parse_tmpl.specs.Rules as spec;

use crate::definitions::definition;
use crate::last_new::member_ends_in_new;
use crate::modifiers::modifiers;
use crate::spans::{def_span, first_modifier};
use crate::words::{begins_definition, goes_member};
use sl_ast::Member;
use sl_parse_expr::{Cursor, Stopped, behind_item, join, read_expr, separates, separator};
use sqlite_items::Items;
use std::alloc::Global;

// {'override' | 'private'} Def
#[tactic(auto, unfolding(crate::specs::Rules::member_def))]
fn member_def(alloc: Global, tokens: &mut Cursor<'_>, depth: usize) -> Result<Member, Stopped>
    ensures { Reads (spec.member_def (expr depth) (pattern depth) tokens.old) result tokens.new }
{
    let modifiers = modifiers(alloc, tokens)?;
    let def = definition(alloc, tokens, depth)?;
    let end = def_span(&def);
    let span = join(first_modifier(modifiers.as_slice(), end), end);
    Ok(Member::Def {
        modifiers,
        def,
        span,
    })
}

// Expr, as a member.
#[tactic(auto, unfolding(crate::specs::Rules::member_expr))]
fn member_expr(alloc: Global, tokens: &mut Cursor<'_>, depth: usize) -> Result<Member, Stopped>
    ensures { Reads (spec.member_expr (expr depth) (pattern depth) tokens.old) result tokens.new }
{
    Ok(Member::Expr(read_expr(alloc, tokens, depth)?))
}

// Member ::= {'override' | 'private'} Def | Expr
#[tactic(auto, unfolding(crate::specs::Rules::member))]
fn member(alloc: Global, tokens: &mut Cursor<'_>, depth: usize) -> Result<Member, Stopped>
    ensures { Reads (spec.member (expr depth) (pattern depth) tokens.old) result tokens.new }
{
    if begins_definition(tokens.ahead()) {
        member_def(alloc, tokens, depth)
    } else {
        member_expr(alloc, tokens, depth)
    }
}

// A separator between members.
#[tactic(auto, unfolding(crate::specs::Rules::member_apart))]
fn member_apart(tokens: &mut Cursor<'_>) -> Result<Option<(Member, bool)>, Stopped>
    ensures { Reads (spec.member_apart tokens.old) result tokens.new }
{
    separator(tokens)?;
    Ok(None)
}

// A member, and whether nothing was held behind it.
#[tactic(auto, unfolding(crate::specs::Rules::member_item))]
fn member_item(
    alloc: Global,
    tokens: &mut Cursor<'_>,
    depth: usize,
) -> Result<Option<(Member, bool)>, Stopped>
    ensures { Reads (spec.member_item (expr depth) (pattern depth) tokens.old) result tokens.new }
{
    let found = member(alloc, tokens, depth)?;
    let clean = behind_item(tokens, member_ends_in_new(&found))?;
    Ok(Some((found, clean)))
}

// A member, or a separator between members.
#[tactic(auto, unfolding(crate::specs::Rules::body_item))]
fn body_item(
    alloc: Global,
    tokens: &mut Cursor<'_>,
    depth: usize,
) -> Result<Option<(Member, bool)>, Stopped>
    ensures { Reads (spec.body_item (expr depth) (pattern depth) tokens.old) result tokens.new }
{
    if separates(tokens.ahead()) {
        member_apart(tokens)
    } else {
        member_item(alloc, tokens, depth)
    }
}

/// Members with separators between them, and whether a further one may follow.
#[tactic(auto, unfolding(crate::specs::Rules::members))]
pub fn members(
    alloc: Global,
    tokens: &mut Cursor<'_>,
    depth: usize,
) -> Result<(bool, Items<Member>), Stopped>
    ensures { Reads (spec.members (expr depth) (pattern depth) tokens.old) result tokens.new }
{
    let mut found = Items::new(alloc);
    let mut apart = true;
    'turn: while goes_member(apart, tokens) {
        match body_item(alloc, tokens, depth)? {
            Some((member, clean)) => {
                found.push(member)?;
                apart = !clean;
            }
            None => apart = true,
        }
    }
    Ok((apart, found))
}
