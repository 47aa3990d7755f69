//! Copies of tokens.

ghost use Rattle.std.specs.Prelude.{◌≡◌, IfOk};

use sl_ast::{Token, TokenKind};
use sl_base::NoMemory;
use std::alloc::Global;

/// A token equal to this one.
pub fn copy_token(alloc: Global, token: &Token) -> Result<Token, NoMemory>
    ensures { IfOk result (λ copy. copy ≡ token.now) }
{
    let kind = copy_kind(alloc, &token.kind)?;
    Ok(Token {
        kind,
        span: token.span,
    })
}

// A copy of what a token is.
fn copy_kind(alloc: Global, kind: &TokenKind) -> Result<TokenKind, NoMemory>
    ensures { IfOk result (λ copy. copy ≡ kind.now) }
{
    match kind {
        TokenKind::Id(name) => Ok(TokenKind::Id(name.copy(alloc)?)),
        TokenKind::Op(name) => Ok(TokenKind::Op(name.copy(alloc)?)),
        TokenKind::Key(number) => Ok(TokenKind::Key(*number)),
        TokenKind::Mark(number) => Ok(TokenKind::Mark(*number)),
        TokenKind::Number(value) => Ok(TokenKind::Number(*value)),
        TokenKind::Text(value) => Ok(TokenKind::Text(value.copy(alloc)?)),
        TokenKind::Newline => Ok(TokenKind::Newline),
    }
}
