//! What begins at a character.

ghost use Rattle.std.specs.Prelude.{◌≡◌, ◌<◌, IfSome};
ghost use Rattle.sl_lexer.specs.Class as spec;

use crate::characters::{continues, is, is_operator};

/// What may begin at an offset.
#[derive(Clone, Copy)]
pub enum Class {
    White,
    LineComment,
    BlockComment,
    Dollar,
    Quote,
    Digit,
    Word,
    /// The mark `_`.
    Underscore,
    Operator,
    /// A bracket, `,`, `;` or `.`, by its number among the marks.
    Single(u8),
    Other,
}

/// What begins at this character, with the one behind it.
pub fn class_of(c: char, next: Option<char>) -> Class
    ensures { result ≡ spec.class_of c next }
{
    if c == '/' && is(next, '/') {
        Class::LineComment
    } else if c == '/' && is(next, '*') {
        Class::BlockComment
    } else if c == '$' {
        Class::Dollar
    } else if c == '"' {
        Class::Quote
    } else if c == '_' {
        if continues(next) {
            Class::Word
        } else {
            Class::Underscore
        }
    } else {
        match single(c) {
            None => plain(c),
            Some(number) => Class::Single(10 + number),
        }
    }
}

// The number of the character among the marks of one character, counted from 0.
fn single(c: char) -> Option<u8>
    ensures value { result ≡ spec.single c }
    ensures within { IfSome result (λ number. number < 9) }
{
    match c {
        '(' => Some(0),
        ')' => Some(1),
        '[' => Some(2),
        ']' => Some(3),
        '{' => Some(4),
        '}' => Some(5),
        ',' => Some(6),
        ';' => Some(7),
        '.' => Some(8),
        _ => None,
    }
}

// What begins at this character, whatever stands behind it.
fn plain(c: char) -> Class
    ensures { result ≡ spec.plain c }
{
    if c.is_ascii_whitespace() {
        Class::White
    } else if c.is_ascii_digit() {
        Class::Digit
    } else if is_operator(c) {
        Class::Operator
    } else if unicode_ident::is_xid_start(c) {
        Class::Word
    } else {
        Class::Other
    }
}
