//! The piece at an offset of a text.

ghost use Rattle.std.specs.Prelude.{◌≡◌, ◌≤◌, ◌^◌, nat_lt, length, drop, IfOk, IfSome};
ghost use Rattle.std.specs.Str.{chars};
ghost use Rattle.sl_lexer.specs.Piece.{piece_at, by_class, by_comment, by_end, text_piece};
ghost use Rattle.sl_lexer.specs.Reading.{IsWithin};
ghost use Rattle.sl_lexer.specs.Comment.{comment_len};
ghost use Rattle.sl_lexer.specs.TextLiteral.{IsClosedWithin};

use crate::characters::{behind, first, is, line_len, rest_of_line, rest_of_text, white_len};
use crate::class::{Class, class_of};
use crate::comments::comment_length;
use crate::fault::LexKind;
use crate::piece::Piece;
use crate::texts::{TextEnd, text_end};
use crate::words::{number, operator, word};
use sl_ast::TokenKind;
use sl_base::Name;
use std::alloc::{AllocError, Global};

// The most characters that a text literal may have.
const LONGEST_TEXT: usize = 10_000;

/// What stands in front. `low`: a name that ends in `_` stands directly before.
pub fn read(alloc: Global, low: bool, left: &[char]) -> Result<Option<Piece>, AllocError>
    requires { length left.now ≤ 2 ^ 20 }
    ensures value { IfOk result (λ piece. piece ≡ piece_at low left.now) }
    ensures within { IfOk result (λ piece. IfSome piece (λ piece. IsWithin piece (length left.now))) }
{
    match first(left) {
        None => Ok(None),
        Some(c) => {
            let class = class_of(c, first(behind(left, 1)));
            let piece = read_class(alloc, low, class, left)?;
            Ok(Some(piece))
        }
    }
}

// What stands in front, where this begins there.
fn read_class(alloc: Global, low: bool, class: Class, left: &[char]) -> Result<Piece, AllocError>
    requires { length left.now ≤ 2 ^ 20 }
    ensures { IfOk result (λ piece. piece ≡ by_class low class left.now) }
{
    match class {
        Class::White => Ok(Piece::Blank(1 + white_len(behind(left, 1)))),
        Class::LineComment => Ok(Piece::Blank(1 + line_len(behind(left, 1)))),
        Class::BlockComment => Ok(comment(left)),
        Class::Dollar => Ok(Piece::Fault(LexKind::Dollar, 1)),
        Class::Quote => text(alloc, behind(left, 1)),
        Class::Digit => number(alloc, left),
        Class::Word => word(alloc, left),
        Class::Underscore => Ok(Piece::Token(TokenKind::Mark(0), 1)),
        Class::Operator => {
            if low {
                Ok(Piece::Fault(LexKind::BadChar, 1))
            } else {
                operator(alloc, left)
            }
        }
        Class::Single(number) => Ok(Piece::Token(TokenKind::Mark(number), 1)),
        Class::Other => Ok(Piece::Fault(LexKind::BadChar, 1)),
    }
}

// The comment in front, or the fault of one that is never closed.
fn comment(left: &[char]) -> Piece
    requires { length left.now ≤ 2 ^ 20 }
    ensures { result ≡ by_comment left.now (comment_len (drop 2 left.now)) }
{
    match comment_length(behind(left, 2)) {
        None => Piece::Fault(LexKind::OpenComment, left.len()),
        Some(count) => Piece::Blank(2 + count),
    }
}

// The text literal that begins before these characters.
fn text(alloc: Global, left: &[char]) -> Result<Piece, AllocError>
    requires { length left.now ≤ 2 ^ 20 }
    ensures { IfOk result (λ piece. piece ≡ text_piece left.now) }
{
    if is(first(left), '"') && is(first(behind(left, 1)), '"') {
        return Ok(Piece::Fault(LexKind::BadChar, 1));
    }
    let end = text_end(alloc, left)?;
    Ok(ended(left, end))
}

// The text literal that ends so, or its fault.
fn ended(left: &[char], end: TextEnd) -> Piece
    requires limit { length left.now ≤ 2 ^ 20 }
    requires within { IsClosedWithin left.now end }
    ensures { result ≡ by_end left.now end }
{
    match end {
        TextEnd::Closed(value, count) => {
            if is_long(&value) {
                Piece::Fault(LexKind::LongText, 1 + count)
            } else {
                Piece::Token(TokenKind::Text(value), 1 + count)
            }
        }
        TextEnd::Wrong => Piece::Fault(LexKind::BadEscape, 1 + rest_of_text(left)),
        TextEnd::Open => Piece::Fault(LexKind::OpenText, 1 + rest_of_line(left)),
    }
}

// Whether a text literal has more characters than it may have.
fn is_long(value: &Name) -> bool
    ensures { result ≡ nat_lt 10000 (length value.now) }
{
    characters(value.as_str()) > LONGEST_TEXT
}

// How many characters a text has.
fn characters(text: &str) -> usize
    ensures { result ≡ length (chars text.now) }
{
    text.chars().count()
}
