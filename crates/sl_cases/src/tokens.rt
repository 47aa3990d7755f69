//! Tokens, shown on a line.

use sl_ast::{Token, TokenKind};
use std::alloc::{AllocError, Global};
use std::fmt::Write;

/// Keywords and marks by their numbers, a newline as `n`, a number as `#`, a text literal as `"`.
pub(crate) fn shown(alloc: Global, tokens: &[Token]) -> Result<String, AllocError> {
    let mut all = String::new(alloc);
    for token in tokens {
        let one = shown_one(alloc, token)?;
        all.push_str(one.as_str())?;
    }
    Ok(all)
}

// A token, with a space before it.
fn shown_one(alloc: Global, token: &Token) -> Result<String, AllocError> {
    match &token.kind {
        TokenKind::Id(name) | TokenKind::Op(name) => format!(in alloc; " {}", name.as_str()),
        TokenKind::Key(number) => format!(in alloc; " k{number}"),
        TokenKind::Mark(number) => format!(in alloc; " m{number}"),
        TokenKind::Number(_) => format!(in alloc; " #"),
        TokenKind::Text(_) => format!(in alloc; " \""),
        TokenKind::Newline => format!(in alloc; " n"),
    }
}
