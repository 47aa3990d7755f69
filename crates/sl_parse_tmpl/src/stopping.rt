//! What is told of the token at which reading stopped.

ghost use Rattle.std.specs.Prelude.{◌≡◌};
ghost use Rattle.std.specs.Option.{option_copied};
ghost use Rattle.sl_parse_tmpl.specs.Faults as faults;

use crate::fault::{ParseFault, ParseKind};
use sl_ast::Token;
use sl_parse_expr::Cursor;
use sl_text::Span;

// The number of a token, which stands still at the end of its type.
fn number(at: usize) -> u32
    ensures { result ≡ faults.number at }
{
    if at < u32::MAX as usize {
        at as u32
    } else {
        u32::MAX
    }
}

// The empty span behind a token.
fn behind(last: Option<&Token>) -> Span
    ensures { result ≡ faults.behind (option_copied last.entry) }
{
    match last {
        Some(token) => Span {
            from: token.span.to,
            to: token.span.to,
        },
        None => Span { from: 0, to: 0 },
    }
}

// The span of the next token, or the empty one behind all tokens.
fn next_span(tokens: &[Token], next: Option<&Token>) -> Span
    ensures { result ≡ faults.next_span tokens.now (option_copied next.entry) }
{
    match next {
        Some(token) => token.span,
        None => behind(tokens.get(tokens.len().saturating_sub(1))),
    }
}

/// A fault at the token where the cursor stands.
pub fn fault_at(tokens: &[Token], left: &Cursor<'_>, kind: ParseKind) -> ParseFault
    ensures { result ≡ faults.fault_at tokens.now left.now.1 kind }
{
    ParseFault {
        kind,
        at: number(tokens.len().saturating_sub(left.len())),
        span: next_span(tokens, left.peek()),
    }
}
