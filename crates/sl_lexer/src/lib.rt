//! The tokens of a text (SLS 1), or its fault.
#![tactic(auto)]

ghost use Rattle.std.specs.Prelude.{◌≡◌, ◌<◌, ◌≤◌, ◌^◌, ◌⊎◌, length, IfOk, IfErr, OnOk};
ghost use Rattle.std.specs.Bool.{MatchBool};
ghost use Rattle.sl_lexer.specs.Lex.{Lex, Fault};
ghost use Rattle.sl_lexer.specs.Reading.{IsRead, IsCause};

mod characters;
mod class;
mod comments;
mod cursor;
mod fault;
mod front;
mod laws;
mod letters;
mod piece;
mod reading;
mod tables;
#[cfg(test)]
mod tests;
mod texts;
mod words;

use characters::behind;
pub use fault::{LexFault, LexKind};
use front::{Front, no_memory, take};
pub use laws::{forms, lexing, nesting};
use reading::read;
use sl_ast::Token;
use sl_text::Text;
use std::alloc::Global;

/// The tokens of a text. A fault: the longest front that can be read ends at its span, where it stands. `Memory` tells
/// nothing of the text.
pub fn lex(alloc: Global, text: &Text) -> Result<Vec<Token>, LexFault>
    ensures tokens { IfOk result (λ tokens. Lex text.now tokens.items) }
    ensures fault { IfErr result (λ fault. (fault.kind ≡ LexKind.Memory) ⊎ Fault text.now fault.kind fault.span) }
{
    let chars = text.as_slice();
    let mut front = Front::new(alloc, chars);
    'step: while step(alloc, chars, &mut front)? {}
    Ok(tokens_of(front))
}

// Takes the piece behind the front, unless the text ends there.
fn step(alloc: Global, chars: &[char], front: &mut Front) -> Result<bool, LexFault>
    requires limit { length chars.now ≤ 2 ^ 20 }
    requires read { IsRead chars.now front.old }
    ensures read { OnOk result (IsRead chars.now front.new) }
    ensures more { IfOk result (λ more. MatchBool more (front.old.at < front.new.at) (length chars.now ≡ front.new.at)) }
    ensures err { IfErr result (IsCause chars.now) }
{
    match read(alloc, front.low, behind(chars, front.at)) {
        Err(_) => Err(no_memory(front.at)),
        Ok(None) => Ok(false),
        Ok(Some(piece)) => match take(chars, front, piece) {
            Ok(()) => Ok(true),
            Err(fault) => Err(fault),
        },
    }
}

// The tokens of the front.
fn tokens_of(front: Front) -> Vec<Token>
    ensures { result.items ≡ front.tokens.items }
{
    front.tokens
}
