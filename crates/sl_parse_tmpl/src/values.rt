//! Types and right sides of definitions.

ghost use Rattle.std.specs.Prelude.{◌≡◌};
ghost use Rattle.sl_parse_expr.specs.Reading.{Reads};
ghost use Rattle.sl_parse_expr.specs.Levels.{expr};
ghost use Rattle.sl_parse_expr.specs.PatternRules.{pattern};
ghost use Rattle.sl_parse_tmpl.specs.Rules as spec;

use sl_ast::{Expr, TypeTree};
use sl_parse_expr::{Ahead, Cursor, Stopped, expect, read_expr, type_tree};
use std::alloc::Global;

/// `:` and a type.
#[tactic(auto, unfolding(crate::specs::Rules::typed))]
pub fn typed(alloc: Global, tokens: &mut Cursor<'_>) -> Result<TypeTree, Stopped>
    ensures { Reads (spec.typed tokens.old) result tokens.new }
{
    expect(tokens, Ahead::Colon)?;
    type_tree(alloc, tokens)
}

// ':' Type, as a type that is there.
#[tactic(auto, unfolding(crate::specs::Rules::some_type))]
fn some_type(alloc: Global, tokens: &mut Cursor<'_>) -> Result<Option<TypeTree>, Stopped>
    ensures { Reads (spec.some_type tokens.old) result tokens.new }
{
    Ok(Some(typed(alloc, tokens)?))
}

/// `:` and a type, where they stand.
#[tactic(auto, unfolding(crate::specs::Rules::optional_type))]
pub fn optional_type(alloc: Global, tokens: &mut Cursor<'_>) -> Result<Option<TypeTree>, Stopped>
    ensures { Reads (spec.optional_type tokens.old) result tokens.new }
{
    if tokens.offers(Ahead::Colon) {
        some_type(alloc, tokens)
    } else {
        Ok(None)
    }
}

/// `=` and an expression.
#[tactic(auto, unfolding(crate::specs::Rules::value))]
pub fn value(alloc: Global, tokens: &mut Cursor<'_>, depth: usize) -> Result<Expr, Stopped>
    ensures { Reads (spec.value (expr depth) (pattern depth) tokens.old) result tokens.new }
{
    expect(tokens, Ahead::Equals)?;
    read_expr(alloc, tokens, depth)
}

// '=' Expr, as a right side that is there.
#[tactic(auto, unfolding(crate::specs::Rules::some_value))]
fn some_value(alloc: Global, tokens: &mut Cursor<'_>, depth: usize) -> Result<Option<Expr>, Stopped>
    ensures { Reads (spec.some_value (expr depth) (pattern depth) tokens.old) result tokens.new }
{
    Ok(Some(value(alloc, tokens, depth)?))
}

/// `=` and an expression, where they stand.
#[tactic(auto, unfolding(crate::specs::Rules::optional_value))]
pub fn optional_value(
    alloc: Global,
    tokens: &mut Cursor<'_>,
    depth: usize,
) -> Result<Option<Expr>, Stopped>
    ensures { Reads (spec.optional_value (expr depth) (pattern depth) tokens.old) result tokens.new }
{
    if tokens.offers(Ahead::Equals) {
        some_value(alloc, tokens, depth)
    } else {
        Ok(None)
    }
}
