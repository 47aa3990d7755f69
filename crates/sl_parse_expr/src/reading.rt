//! Expressions to a depth.

ghost use Rattle.std.specs.Prelude.{◌≡◌};
ghost use Rattle.sl_parse_expr.specs.Levels as spec;
ghost use Rattle.sl_parse_expr.specs.PatternRules.{pattern};
ghost use Rattle.sl_parse_expr.specs.Reading.{Reads};
ghost use Rattle.sl_parse_expr.specs.Rules as rules;
ghost use Rattle.sl_parse_expr.specs.Starts as starts;

use crate::cursor::Cursor;
use crate::grammar::Grammar;
use crate::starts::begins_expr;
use crate::stopped::Stopped;
use sl_ast::{Expr, ParArgs};
use std::alloc::Global;

// No expression may nest here.
#[tactic(auto, unfolding(crate::specs::Rules::too_deep))]
fn no_expr(tokens: &mut Cursor<'_>) -> Result<Expr, Stopped>
    ensures { Reads (rules.too_deep starts.begins_expr tokens.old) result tokens.new }
{
    if begins_expr(tokens.ahead()) && tokens.is_clean() {
        Err(Stopped::TooDeep)
    } else {
        Err(Stopped::Unexpected)
    }
}

/// The rule of expressions, over itself one level less deep.
pub fn read_level(alloc: Global, tokens: &mut Cursor<'_>, depth: usize) -> Result<Expr, Stopped>
    ensures { Reads (spec.expr depth tokens.old) result tokens.new }
{
    if depth == 0 {
        return no_expr(tokens);
    }
    Grammar {
        alloc,
        depth: depth - 1,
        expr: read_level,
    }
    .any(tokens)
}

/// Arguments in parentheses, in which expressions and patterns nest at most `depth` deep.
pub fn read_args(alloc: Global, tokens: &mut Cursor<'_>, depth: usize) -> Result<ParArgs, Stopped>
    ensures { Reads (rules.par_args (spec.expr depth) (pattern depth) tokens.old) result tokens.new }
{
    Grammar {
        alloc,
        depth,
        expr: read_level,
    }
    .par_args(tokens)
}
