//! Newlines before a token.

ghost use Rattle.std.specs.Prelude.{◌≡◌, [], ◌∷◌, ◌++◌, OnOk};
ghost use Rattle.std.specs.Option.{option_copied};
ghost use Rattle.sl_newline.specs.Regions as spec;

use crate::gaps::newlines_between;
use crate::region::Region;
use crate::regions::{can_begin, can_end, enabled};
use sl_ast::{Shape, Token, TokenKind};
use sl_base::NoMemory;
use sl_text::Span;

/// Puts the newlines before a token.
pub fn put_before(
    found: &mut Vec<Token>,
    chars: &[char],
    region: Option<Region>,
    last: Option<&Token>,
    token: &Token,
    next: Option<Shape>,
) -> Result<(), NoMemory>
    ensures ok { OnOk result (found.new.items ≡ found.old.items ++ spec.inserted_by chars.now region (option_copied last.entry) token.now next) }
{
    match last {
        Some(before) => {
            if enabled(region)
                && can_end(before.kind.shape())
                && can_begin(token.kind.shape(), next)
            {
                let count = newlines_between(chars, before.span, token.span);
                put_lines(found, before.span.to, count)
            } else {
                Ok(())
            }
        }
        None => Ok(()),
    }
}

// Puts so many newlines at the end, at most two.
fn put_lines(found: &mut Vec<Token>, at: u32, count: u8) -> Result<(), NoMemory>
    ensures ok { OnOk result (found.new.items ≡ found.old.items ++ spec.lines_of at count) }
{
    if count == 0 {
        return Ok(());
    }
    push(found, newline_at(at))?;
    if count == 1 {
        return Ok(());
    }
    push(found, newline_at(at))
}

// A newline, with the empty span at an offset.
fn newline_at(at: u32) -> Token
    ensures { result ≡ spec.newline_at at }
{
    Token {
        kind: TokenKind::Newline,
        span: Span { from: at, to: at },
    }
}

/// Puts a token at the end.
pub fn push(tokens: &mut Vec<Token>, token: Token) -> Result<(), NoMemory>
    ensures { OnOk result (tokens.new.items ≡ tokens.old.items ++ token ∷ []) }
{
    match tokens.push(token) {
        Ok(()) => Ok(()),
        Err(_) => Err(NoMemory),
    }
}
