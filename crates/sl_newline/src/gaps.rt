//! The characters between two tokens.

ghost use Rattle.std.specs.Prelude.{◌≡◌, drop, take};
ghost use Rattle.sl_newline.specs.Gaps as spec;
ghost use Rattle.sl_newline.specs.Gaps.{ends_blank, is_fresh};

use sl_text::Span;

/// How many newlines stand between these two spans.
pub fn newlines_between(text: &[char], before: Span, behind: Span) -> u8
    ensures { result ≡ spec.newlines (spec.between text.now before behind) }
{
    let count = (behind.from as usize).saturating_sub(before.to as usize);
    newlines(front(rest(text, before.to as usize), count))
}

// How many newlines these characters bring.
fn newlines(gap: &[char]) -> u8
    ensures { result ≡ spec.newlines gap.now }
{
    if blank_line(gap) {
        2
    } else if line(gap) {
        1
    } else {
        0
    }
}

// Whether a line ends there.
fn line(gap: &[char]) -> bool
    ensures { result ≡ spec.has_line gap.now }
{
    gap.iter().any(|c| *c == '\n')
}

// Whether a line of white space alone stands there.
fn blank_line(gap: &[char]) -> bool
    ensures { result ≡ spec.has_blank_line gap.now }
{
    let mut fresh = false;
    for c in gap {
        if ends_blank(fresh, *c) {
            return true;
        }
        fresh = is_fresh(fresh, *c);
    }
    false
}

// Whether a line of white space alone ends with this character. `fresh`: white space alone stands before it, from the
// last line's end on.
fn ends_blank(fresh: bool, c: char) -> bool
    ensures { result ≡ ends_blank fresh c }
{
    fresh && c == '\n'
}

// Whether white space alone stands behind the last line's end, after this character.
fn is_fresh(fresh: bool, c: char) -> bool
    ensures { result ≡ is_fresh fresh c }
{
    c == '\n' || (fresh && is_white(c))
}

// Whether the character is white space that ends no line.
fn is_white(c: char) -> bool
    ensures { result ≡ spec.is_white c }
{
    c == ' ' || c == '\t' || c == '\u{c}' || c == '\r'
}

// What stands behind so many characters.
fn rest(text: &[char], count: usize) -> &[char]
    ensures { result.now ≡ drop count text.now }
{
    if count <= text.len() {
        &text[count..]
    } else {
        &[]
    }
}

// The first so many characters.
fn front(text: &[char], count: usize) -> &[char]
    ensures { result.now ≡ take count text.now }
{
    if count <= text.len() {
        &text[..count]
    } else {
        text
    }
}
