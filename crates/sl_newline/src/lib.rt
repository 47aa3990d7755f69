//! Newlines between tokens (SLS 1.2).
#![tactic(auto)]

ghost use Rattle.std.specs.Prelude.{IfOk};
ghost use Rattle.sl_newline.specs.Regions.{Separated};

mod copies;
mod cursor;
mod gaps;
mod laws;
mod region;
mod regions;
mod separating;
mod stack;
#[cfg(test)]
mod tests;

use copies::copy_token;
use cursor::Cursor;
pub use laws::separated;
use regions::step;
use separating::{push, put_before};
use sl_ast::Token;
use sl_base::NoMemory;
use sl_text::Text;
use stack::Stack;
use std::alloc::Global;

/// The tokens of a text with newlines between them (SLS 1.2).
pub fn separate(alloc: Global, tokens: &[Token], text: &Text) -> Result<Vec<Token>, NoMemory>
    ensures { IfOk result (λ out. Separated text.now tokens.now out.items) }
{
    let chars = text.as_slice();
    let mut left = Cursor::new(tokens);
    let mut open = Stack::new(alloc);
    let mut found = Vec::new(alloc);
    let mut last: Option<&Token> = None;
    'turn: while let Some(token) = left.peek() {
        left.skip();
        put_before(&mut found, chars, open.front(), last, token, left.shape())?;
        push(&mut found, copy_token(alloc, token)?)?;
        step(&mut open, token.kind.shape(), left.shape())?;
        last = Some(token);
    }
    Ok(found)
}
