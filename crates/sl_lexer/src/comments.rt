//! Comments that nest.

ghost use Rattle.std.specs.Prelude.{ℕ, List, ◌≡◌, ◌≤◌, ◌^◌, ◌↔◌, false, true, length, Some, MatchOption};
ghost use Rattle.sl_lexer.specs.Comment as spec;
ghost use Rattle.sl_lexer.specs.Comment.{IsComment, comment_end, comment_len};

use crate::cursor::Cursor;

/// How many characters the comment has that begins before these, if it is closed.
pub fn comment_length(left: &[char]) -> Option<usize>
    requires { length left.now ≤ 2 ^ 20 }
    ensures { result ≡ comment_len left.now }
{
    let mut cursor = Cursor::new(left);
    if scan(&mut cursor) {
        Some(left.len().saturating_sub(cursor.len()))
    } else {
        None
    }
}

// Goes past the end of a comment, if it ends.
fn scan(cursor: &mut Cursor<'_>) -> bool
    requires { length cursor.old ≤ 2 ^ 20 }
    ensures { MatchOption (comment_end 0 cursor.old) (result ≡ false) (λ r. (result ≡ true) × (cursor.new ≡ r)) }
{
    let mut depth: u32 = 0;
    'turn: while let Some(c) = cursor.peek() {
        cursor.skip();
        let next = cursor.peek();
        if closes(c, next) {
            cursor.skip();
            if depth == 0 {
                return true;
            }
            depth -= 1;
        } else if opens(c, next) {
            cursor.skip();
            depth += 1;
        }
    }
    false
}

// Whether these two are `*/`.
fn closes(c: char, next: Option<char>) -> bool
    ensures { result ≡ spec.closes c next }
{
    match next {
        Some(d) => (c == '*') & (d == '/'),
        None => false,
    }
}

// Whether these two are `/*`.
fn opens(c: char, next: Option<char>) -> bool
    ensures { result ≡ spec.opens c next }
{
    match next {
        Some(d) => (c == '/') & (d == '*'),
        None => false,
    }
}
