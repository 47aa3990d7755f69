//! Text literals.

ghost use Rattle.std.specs.Prelude.{◌≡◌, ◌+◌, ◌<◌, ◌≤◌, ◌==◌, ◌^◌, drop, length, IfOk, IfSome};
ghost use Rattle.std.specs.List.{prefix_len};
ghost use Rattle.sl_lexer.specs.TextLiteral as spec;
ghost use Rattle.sl_lexer.specs.Characters.{first as first_of};

use crate::characters::{behind, ends_line, first};
use crate::letters::Letters;
use sl_base::Name;
use std::alloc::{AllocError, Global};

/// What stands in front in a text literal: a character with the number of characters that it takes, the closing `"`,
/// a wrong escape, or the end of the line.
#[derive(Clone, Copy)]
pub enum Part {
    Char(char, usize),
    Close,
    Wrong,
    End,
}

/// How a text literal ends: it is closed, with its value and the number of characters up to there; or a wrong escape or
/// the line's end comes first.
#[derive(Drop)]
pub enum TextEnd {
    Closed(Name, usize),
    Wrong,
    Open,
}

/// How the text literal ends that begins before these characters.
pub fn text_end(alloc: Global, left: &[char]) -> Result<TextEnd, AllocError>
    requires { length left.now ≤ 2 ^ 20 }
    ensures value { IfOk result (λ end. end ≡ spec.text_end left.now) }
    ensures within { IfOk result (spec.IsClosedWithin left.now) }
{
    let mut letters = Letters::new(alloc);
    let mut at: usize = 0;
    'part: loop {
        match part_of(behind(left, at)) {
            Part::Char(c, count) => {
                letters.push(c)?;
                at += count;
            }
            Part::Close => return Ok(TextEnd::Closed(letters.into_name(), at + 1)),
            Part::Wrong => return Ok(TextEnd::Wrong),
            Part::End => return Ok(TextEnd::Open),
        }
    }
}

// What stands in front.
fn part_of(left: &[char]) -> Part
    ensures { result ≡ spec.part_of left.now }
{
    match first(left) {
        None => Part::End,
        Some(c) => {
            if c == '"' {
                Part::Close
            } else if ends_line(c) {
                Part::End
            } else if c == '\\' {
                escape(behind(left, 1))
            } else {
                Part::Char(c, 1)
            }
        }
    }
}

// The escape with these characters behind its `\`.
fn escape(left: &[char]) -> Part
    ensures { result ≡ spec.escape_by (first_of left.now) left.now }
{
    match first(left) {
        None => Part::End,
        Some(c) => {
            if ends_line(c) {
                Part::End
            } else if c == 'u' {
                coded(left)
            } else {
                escaped(2, named(c))
            }
        }
    }
}

// An escape with so many characters, where it names one.
fn escaped(count: usize, c: Option<char>) -> Part
    ensures { result ≡ spec.escaped count c }
{
    match c {
        None => Part::Wrong,
        Some(c) => Part::Char(c, count),
    }
}

// The character that a `\` and this one name.
fn named(c: char) -> Option<char>
    ensures { result ≡ spec.named c }
{
    match c {
        'b' => Some('\u{8}'),
        't' => Some('\t'),
        'n' => Some('\n'),
        'f' => Some('\u{c}'),
        'r' => Some('\r'),
        '"' => Some('"'),
        '\'' => Some('\''),
        '\\' => Some('\\'),
        _ => None,
    }
}

// One or more `u` and four hexadecimal digits.
fn coded(left: &[char]) -> Part
    ensures { result ≡ spec.coded left.now }
{
    let letters = letter_len(left);
    escaped(letters + 5, code(behind(left, letters)))
}

// How many `u` stand in front.
fn letter_len(left: &[char]) -> usize
    ensures value { result ≡ prefix_len (λ c. c == 117) left.now }
    ensures within { result ≤ length left.now }
{
    left.iter().take_while(|c| **c == 'u').count()
}

// The character of the four hexadecimal digits in front.
fn code(left: &[char]) -> Option<char>
    ensures { result ≡ spec.code left.now }
{
    match four(
        hex_at(0, left),
        hex_at(1, left),
        hex_at(2, left),
        hex_at(3, left),
    ) {
        None => None,
        Some(code) => char::from_u32(code),
    }
}

// The number that four hexadecimal digits write.
fn four(p: Option<u32>, q: Option<u32>, r: Option<u32>, s: Option<u32>) -> Option<u32>
    requires p { IfSome p (λ n. n < 16) }
    requires q { IfSome q (λ n. n < 16) }
    requires r { IfSome r (λ n. n < 16) }
    requires s { IfSome s (λ n. n < 16) }
    ensures { result ≡ spec.four p q r s }
{
    match (p, q, r, s) {
        (Some(p), Some(q), Some(r), Some(s)) => Some(((p * 16 + q) * 16 + r) * 16 + s),
        _ => None,
    }
}

// The value of the hexadecimal digit that stands behind so many characters.
fn hex_at(i: usize, left: &[char]) -> Option<u32>
    ensures value { result ≡ spec.hex_at i left.now }
    ensures digit { IfSome result (λ n. n < 16) }
{
    match first(behind(left, i)) {
        None => None,
        Some(c) => c.to_digit(16),
    }
}
