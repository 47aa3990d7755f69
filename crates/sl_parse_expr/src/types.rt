//! Written types.

ghost use Rattle.std.specs.Prelude.{◌≡◌};
ghost use Rattle.sl_parse_expr.specs.Reading.{Reads};
ghost use Rattle.sl_parse_expr.specs.Rules as spec;

use crate::ahead::Ahead;
use crate::cursor::Cursor;
use crate::spans::join;
use crate::stopped::Stopped;
use crate::tokens::{expect, name};
use sl_ast::{Ident, TypeTree};
use std::alloc::Global;

// The argument of a type with this name.
#[tactic(auto, unfolding(crate::specs::Rules::applied))]
fn applied(alloc: Global, tokens: &mut Cursor<'_>, class: Ident) -> Result<TypeTree, Stopped>
    ensures { Reads (spec.applied class tokens.old) result tokens.new }
{
    expect(tokens, Ahead::OpenBracket)?;
    let arg = name(alloc, tokens)?;
    let end = expect(tokens, Ahead::CloseBracket)?;
    let span = join(class.span, end);
    Ok(TypeTree::Applied {
        name: class,
        arg,
        span,
    })
}

/// A written type.
#[tactic(auto, unfolding(crate::specs::Rules::type_tree))]
pub fn type_tree(alloc: Global, tokens: &mut Cursor<'_>) -> Result<TypeTree, Stopped>
    ensures { Reads (spec.type_tree tokens.old) result tokens.new }
{
    let class = name(alloc, tokens)?;
    if tokens.offers(Ahead::OpenBracket) {
        applied(alloc, tokens, class)
    } else {
        Ok(TypeTree::Name(class))
    }
}
