//! Characters of a text.

ghost use Rattle.std.specs.Prelude.{◌≡◌, ◌≤◌, ◌==◌, ◌||◌, not, drop, take, take_while, length, cond, IfOk, encode_utf8_all};
ghost use Rattle.std.specs.List.{prefix_len};
ghost use Rattle.std.specs.Char.{is_ascii_digit, is_ascii_whitespace};
ghost use Rattle.std.specs.String.{string_bytes};
ghost use Rattle.unicode_ident.specs.Ident.{is_xid_continue};
ghost use Rattle.sl_lexer.specs.Characters as spec;
ghost use Rattle.sl_lexer.specs.Piece.{in_number};
ghost use Rattle.std.specs.Str.{chars};

use std::alloc::{AllocError, Global};

/// The first of these characters.
pub fn first(left: &[char]) -> Option<char>
    ensures { result ≡ spec.first left.now }
{
    left.first().copied()
}

/// What stands behind so many characters.
pub fn behind(left: &[char], count: usize) -> &[char]
    ensures value { result.now ≡ drop count left.now }
    ensures within { length result.now ≤ length left.now }
{
    if count <= left.len() {
        &left[count..]
    } else {
        &[]
    }
}

/// The first so many characters.
pub fn front(left: &[char], count: usize) -> &[char]
    ensures { result.now ≡ take count left.now }
{
    if count <= left.len() {
        &left[..count]
    } else {
        left
    }
}

/// Whether there is a character, and it is this one.
pub fn is(next: Option<char>, c: char) -> bool
    ensures { result ≡ spec.is c next }
{
    match next {
        None => false,
        Some(d) => d == c,
    }
}

/// Whether there is a character that continues a word.
pub fn continues(next: Option<char>) -> bool
    ensures { result ≡ spec.holds is_xid_continue next }
{
    match next {
        None => false,
        Some(c) => unicode_ident::is_xid_continue(c),
    }
}

/// Whether there is a decimal digit.
pub fn is_digit(next: Option<char>) -> bool
    ensures { result ≡ spec.holds is_ascii_digit next }
{
    match next {
        None => false,
        Some(c) => c.is_ascii_digit(),
    }
}

/// Whether the character is LF or CR.
pub fn ends_line(c: char) -> bool
    ensures { result ≡ spec.ends_line c }
{
    (c == '\n') | (c == '\r')
}

/// Whether operators have the character.
pub fn is_operator(c: char) -> bool
    ensures { result ≡ spec.is_operator c }
{
    matches!(
        c,
        '!' | '#'
            | '%'
            | '&'
            | '*'
            | '+'
            | '-'
            | '/'
            | ':'
            | '<'
            | '='
            | '>'
            | '?'
            | '@'
            | '\\'
            | '^'
            | '|'
            | '~'
    )
}

/// Whether a comment begins with these two.
pub fn comment_begins(c: char, next: Option<char>) -> bool
    ensures { result ≡ spec.comment_begins c next }
{
    c == '/' && (is(next, '/') || is(next, '*'))
}

/// How many characters in front continue a word.
pub fn word_len(left: &[char]) -> usize
    ensures value { result ≡ prefix_len is_xid_continue left.now }
    ensures within { result ≤ length left.now }
{
    left.iter()
        .take_while(|c| unicode_ident::is_xid_continue(**c))
        .count()
}

/// How many characters in front continue a word or are dots.
pub fn number_len(left: &[char]) -> usize
    ensures value { result ≡ prefix_len in_number left.now }
    ensures within { result ≤ length left.now }
{
    left.iter().take_while(|c| in_number(**c)).count()
}

// Whether a wrong number goes on with the character: it continues a word or is a dot.
fn in_number(c: char) -> bool
    ensures { result ≡ in_number c }
{
    unicode_ident::is_xid_continue(c) || c == '.'
}

/// How many characters in front are white.
pub fn white_len(left: &[char]) -> usize
    ensures value { result ≡ prefix_len is_ascii_whitespace left.now }
    ensures within { result ≤ length left.now }
{
    left.iter().take_while(|c| c.is_ascii_whitespace()).count()
}

/// How many characters stand before LF.
pub fn line_len(left: &[char]) -> usize
    ensures value { result ≡ prefix_len (λ c. not (c == 10)) left.now }
    ensures within { result ≤ length left.now }
{
    left.iter().take_while(|c| **c != '\n').count()
}

/// How many characters stand before LF or CR.
pub fn rest_of_line(left: &[char]) -> usize
    ensures value { result ≡ prefix_len (λ c. not (spec.ends_line c)) left.now }
    ensures within { result ≤ length left.now }
{
    left.iter().take_while(|c| !ends_line(**c)).count()
}

/// How many characters stand before `"`, LF or CR.
pub fn rest_of_text(left: &[char]) -> usize
    ensures value { result ≡ prefix_len (λ c. not ((c == 34) || spec.ends_line c)) left.now }
    ensures within { result ≤ length left.now }
{
    left.iter()
        .take_while(|c| !((**c == '"') | ends_line(**c)))
        .count()
}

/// The text of these characters.
pub fn text_of(alloc: Global, letters: &[char]) -> Result<String, AllocError>
    ensures bytes { IfOk result (λ text. string_bytes text ≡ encode_utf8_all letters.now) }
    ensures characters { IfOk result (λ text. chars (string_bytes text) ≡ letters.now) }
{
    let text = spelled(alloc, letters)?;
    Ok(text)
}

// The text, by its bytes alone.
fn spelled(alloc: Global, letters: &[char]) -> Result<String, AllocError>
    ensures { IfOk result (λ text. string_bytes text ≡ encode_utf8_all letters.now) }
{
    letters.iter().copied().collect(alloc)
}
