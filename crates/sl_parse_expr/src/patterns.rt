//! Patterns to a depth.

ghost use Rattle.std.specs.Prelude.{◌≡◌};
ghost use Rattle.sl_parse_expr.specs.PatternRules as spec;
ghost use Rattle.sl_parse_expr.specs.Reading.{Reads};
ghost use Rattle.sl_parse_expr.specs.Rules as rules;

use crate::cursor::Cursor;
use crate::pattern_grammar::PatternGrammar;
use crate::starts::begins_pattern;
use crate::stopped::Stopped;
use sl_ast::Pattern;
use std::alloc::Global;

// No pattern may nest here.
#[tactic(auto, unfolding(crate::specs::Rules::too_deep))]
fn no_pattern(tokens: &mut Cursor<'_>) -> Result<Pattern, Stopped>
    ensures { Reads (rules.too_deep spec.begins_pattern tokens.old) result tokens.new }
{
    if begins_pattern(tokens.ahead()) && tokens.is_clean() {
        Err(Stopped::TooDeep)
    } else {
        Err(Stopped::Unexpected)
    }
}

/// A pattern in which patterns nest at most `depth` deep.
pub fn pattern(alloc: Global, tokens: &mut Cursor<'_>, depth: usize) -> Result<Pattern, Stopped>
    ensures { Reads (spec.pattern depth tokens.old) result tokens.new }
{
    if depth == 0 {
        return no_pattern(tokens);
    }
    PatternGrammar {
        alloc,
        depth: depth - 1,
        pattern,
    }
    .any_pattern(tokens)
}
