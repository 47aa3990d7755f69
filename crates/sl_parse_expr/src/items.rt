//! What stands behind an item of a sequence.

ghost use Rattle.std.specs.Prelude.{◌≡◌};
ghost use Rattle.sl_parse_expr.specs.Reading.{Reads};
ghost use Rattle.sl_parse_expr.specs.Rules as spec;

use crate::ahead::Ahead;
use crate::cursor::{Cursor, Waiting};
use crate::stopped::Stopped;
use crate::tokens::expect;

// That no brace is ahead.
#[tactic(auto, unfolding(crate::specs::Rules::no_brace))]
fn no_brace(tokens: &mut Cursor<'_>) -> Result<(), Stopped>
    ensures { Reads (spec.no_brace tokens.old) result tokens.new }
{
    if tokens.is_at(Ahead::OpenBrace) {
        Err(Stopped::Unexpected)
    } else {
        Ok(())
    }
}

// A line end, behind which no brace may stand.
#[tactic(auto, unfolding(crate::specs::Rules::bare_line))]
fn bare_line(tokens: &mut Cursor<'_>) -> Result<bool, Stopped>
    ensures { Reads (spec.bare_line tokens.old) result tokens.new }
{
    expect(tokens, Ahead::Newline)?;
    no_brace(tokens)?;
    Ok(false)
}

// Behind a bare `new`, where this was held.
#[tactic(auto)]
fn behind_bare(tokens: &mut Cursor<'_>, held: Waiting) -> Result<bool, Stopped>
    ensures { Reads (spec.behind_bare held tokens.old) result tokens.new }
{
    match held {
        Waiting::Nothing => {
            if tokens.offers(Ahead::Newline) {
                bare_line(tokens)
            } else {
                Ok(true)
            }
        }
        Waiting::Line => {
            no_brace(tokens)?;
            Ok(false)
        }
        Waiting::More => Ok(false),
    }
}

// What is held behind a bare `new` goes away, and whether nothing was.
#[tactic(auto, unfolding(crate::specs::Rules::behind_new, crate::specs::Reading::settle))]
fn behind_new(tokens: &mut Cursor<'_>) -> Result<bool, Stopped>
    ensures { Reads (spec.behind_new tokens.old) result tokens.new }
{
    let held = tokens.settle();
    behind_bare(tokens, held)
}

/// What is held behind an item of a sequence goes away: whether nothing was. Behind one that ends in a bare `new` it is
/// Unexpected that one line end and `{` stand (SLS 1.2, 6.10).
#[tactic(auto, unfolding(crate::specs::Reading::absorb))]
pub fn behind_item(tokens: &mut Cursor<'_>, bare: bool) -> Result<bool, Stopped>
    ensures { Reads (spec.behind_item bare tokens.old) result tokens.new }
{
    if bare {
        behind_new(tokens)
    } else {
        Ok(tokens.absorb())
    }
}
