//! The front of a text that is read.

ghost use Rattle.std.specs.Prelude.{◌≡◌, ◌+◌, ◌-◌, ◌<◌, ◌≤◌, ◌^◌, [], ◌∷◌, ◌++◌, length, drop, Some, OnOk, IfErr};
ghost use Rattle.sl_lexer.specs.Piece.{piece_at};
ghost use Rattle.sl_lexer.specs.Lex.{is_low};
ghost use Rattle.sl_lexer.specs.Reading.{IsRead, IsCause, IsWithin};

use crate::fault::{LexFault, LexKind};
use crate::piece::Piece;
use sl_ast::{Token, TokenKind};
use sl_base::NoMemory;
use sl_text::Span;
use std::alloc::Global;

// The most tokens that a text may have.
const MOST_TOKENS: usize = 262_144;

/// The tokens of the first `at` characters of a text. `low`: the last of them is a name that ends in `_`, directly
/// before `at`.
#[derive(Drop)]
pub struct Front {
    pub tokens: Vec<Token>,
    pub low: bool,
    pub at: usize,
}

impl Front {
    /// The front of no characters.
    pub fn new(alloc: Global, chars: &[char]) -> Front
        ensures { IsRead chars.now result }
    {
        Front {
            tokens: Vec::new(alloc),
            low: false,
            at: 0,
        }
    }
}

/// Takes the piece behind the front.
pub fn take(chars: &[char], front: &mut Front, piece: Piece) -> Result<(), LexFault>
    requires limit { length chars.now ≤ 2 ^ 20 }
    requires read { IsRead chars.now front.old }
    requires here { piece_at front.old.low (drop front.old.at chars.now) ≡ Some piece }
    requires size { IsWithin piece (length chars.now - front.old.at) }
    ensures ok { OnOk result (IsRead chars.now front.new) }
    ensures further { OnOk result (front.old.at < front.new.at) }
    ensures err { IfErr result (IsCause chars.now) }
{
    match piece {
        Piece::Blank(count) => {
            front.low = false;
            front.at += count;
            Ok(())
        }
        Piece::Token(kind, count) => take_token(chars, front, kind, count),
        Piece::Fault(kind, count) => Err(fault_at(kind, front.at, count)),
    }
}

// Takes a token of so many characters, unless it is one too many.
fn take_token(
    chars: &[char],
    front: &mut Front,
    kind: TokenKind,
    count: usize,
) -> Result<(), LexFault>
    requires limit { length chars.now ≤ 2 ^ 20 }
    requires read { IsRead chars.now front.old }
    requires here { piece_at front.old.low (drop front.old.at chars.now) ≡ Some (Piece.Token kind count) }
    requires more { 0 < count }
    requires within { front.old.at + count ≤ length chars.now }
    ensures ok { OnOk result (IsRead chars.now front.new) }
    ensures further { OnOk result (front.old.at < front.new.at) }
    ensures err { IfErr result (IsCause chars.now) }
{
    let span = span_at(front.at, count);
    if count_of(&front.tokens) >= MOST_TOKENS {
        return Err(LexFault {
            kind: LexKind::TooMany,
            span,
        });
    }
    let low = is_low(chars, &kind, front.at + count);
    match push(&mut front.tokens, Token { kind, span }) {
        Ok(()) => {
            front.low = low;
            front.at += count;
            Ok(())
        }
        Err(_) => Err(no_memory(front.at)),
    }
}

// How many tokens there are.
fn count_of(tokens: &Vec<Token>) -> usize
    ensures { result ≡ length tokens.now.items }
{
    tokens.len()
}

// Puts a token behind the others.
fn push(tokens: &mut Vec<Token>, token: Token) -> Result<(), NoMemory>
    ensures { OnOk result (tokens.new.items ≡ tokens.old.items ++ token ∷ []) }
{
    match tokens.push(token) {
        Ok(()) => Ok(()),
        Err(_) => Err(NoMemory),
    }
}

// Whether the token that ends at `to` is a name whose last character is `_`.
fn is_low(chars: &[char], kind: &TokenKind, to: usize) -> bool
    requires before { 0 < to }
    requires within { to ≤ length chars.now }
    ensures { result ≡ is_low chars.now kind.now to }
{
    match kind {
        TokenKind::Id(_) => chars[to - 1] == '_',
        _ => false,
    }
}

// The span of so many characters from an offset on.
fn span_at(at: usize, count: usize) -> Span
    requires { at + count ≤ 2 ^ 20 }
    ensures from { result.from ≡ at }
    ensures to { result.to ≡ at + count }
{
    Span {
        from: at as u32,
        to: (at + count) as u32,
    }
}

// A fault of so many characters from an offset on.
fn fault_at(kind: LexKind, at: usize, count: usize) -> LexFault
    requires { at + count ≤ 2 ^ 20 }
    ensures { result ≡ record { kind = kind; span = record { from = at; to = at + count } } }
{
    LexFault {
        kind,
        span: span_at(at, count),
    }
}

/// Want of memory at an offset.
pub fn no_memory(at: usize) -> LexFault
    requires { at ≤ 2 ^ 20 }
    ensures { result.kind ≡ LexKind.Memory }
{
    fault_at(LexKind::Memory, at, 0)
}
