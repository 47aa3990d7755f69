//! Words, operators and numbers.

ghost use Rattle.std.specs.Prelude.{◌≡◌, ◌+◌, ◌≤◌, ◌^◌, length, drop, IfOk};
ghost use Rattle.sl_lexer.specs.Piece.{word_piece, operator_piece, number_piece, wrong_number, fraction};
ghost use Rattle.sl_lexer.specs.Characters.{goes_on, operator_len};

use crate::characters::{
    behind, comment_begins, first, front, is, is_digit, is_operator, number_len, text_of, word_len,
};
use crate::cursor::Cursor;
use crate::fault::LexKind;
use crate::piece::Piece;
use crate::tables::{KEYWORD_TEXTS, MARK_TEXTS, number_in};
use sl_ast::TokenKind;
use sl_base::Name;
use sl_num::literal;
use std::alloc::{AllocError, Global};

// The most characters that a name may have.
const LONGEST_NAME: usize = 80;

/// The keyword or the name in front.
pub fn word(alloc: Global, left: &[char]) -> Result<Piece, AllocError>
    requires { length left.now ≤ 2 ^ 20 }
    ensures { IfOk result (λ piece. piece ≡ word_piece left.now) }
{
    let count = 1 + word_len(behind(left, 1));
    let text = text_of(alloc, front(left, count))?;
    match number_in(&KEYWORD_TEXTS, text.as_str()) {
        Some(number) => Ok(Piece::Token(TokenKind::Key(number), count)),
        None => {
            if count > LONGEST_NAME {
                Ok(Piece::Fault(LexKind::LongText, count))
            } else {
                Ok(Piece::Token(TokenKind::Id(Name::from_string(text)), count))
            }
        }
    }
}

/// The operator in front, or the mark of operator characters.
pub fn operator(alloc: Global, left: &[char]) -> Result<Piece, AllocError>
    requires { length left.now ≤ 2 ^ 20 }
    ensures { IfOk result (λ piece. piece ≡ operator_piece left.now) }
{
    let count = 1 + operator_length(behind(left, 1));
    let text = text_of(alloc, front(left, count))?;
    match number_in(&MARK_TEXTS, text.as_str()) {
        Some(number) => Ok(Piece::Token(TokenKind::Mark(number), count)),
        None => Ok(Piece::Token(TokenKind::Op(Name::from_string(text)), count)),
    }
}

// How many operator characters there are in front, up to a comment.
fn operator_length(left: &[char]) -> usize
    requires { length left.now ≤ 2 ^ 20 }
    ensures value { result ≡ operator_len left.now }
    ensures within { result ≤ length left.now }
{
    let mut cursor = Cursor::new(left);
    let mut count: usize = 0;
    'turn: while let Some(c) = cursor.peek() {
        cursor.skip();
        if !goes_on(c, cursor.peek()) {
            break;
        }
        count += 1;
    }
    count
}

// Whether an operator goes on with this character, where this one follows it.
fn goes_on(c: char, next: Option<char>) -> bool
    ensures { result ≡ goes_on c next }
{
    is_operator(c) && !comment_begins(c, next)
}

/// The number in front.
pub fn number(alloc: Global, left: &[char]) -> Result<Piece, AllocError>
    requires { length left.now ≤ 2 ^ 20 }
    ensures { IfOk result (λ piece. piece ≡ number_piece left.now) }
{
    let count = 1 + word_len(behind(left, 1));
    if is_fraction(behind(left, count)) {
        return Ok(wrong_number(left));
    }
    let text = text_of(alloc, front(left, count))?;
    match literal(text.as_str()) {
        Ok(value) => Ok(Piece::Token(TokenKind::Number(value), count)),
        Err(_) => Ok(wrong_number(left)),
    }
}

// The fault of a number, over all characters that could continue one and dots.
fn wrong_number(left: &[char]) -> Piece
    requires { length left.now ≤ 2 ^ 20 }
    ensures { result ≡ wrong_number left.now }
{
    Piece::Fault(LexKind::Number, 1 + number_len(behind(left, 1)))
}

// Whether a `.` and a digit are in front.
fn is_fraction(left: &[char]) -> bool
    ensures { result ≡ fraction left.now }
{
    is(first(left), '.') && is_digit(first(behind(left, 1)))
}
