//! A position in a text, as people name it.

ghost use Rattle.std.specs.Prelude.{◌≡◌, ◌≤◌, ◌↔◌, length, IsTrue};
ghost use Rattle.sl_text.specs.Spot.{IsSpot, line_feed};

use crate::text::Text;

/// A line and a column, both counted from 1.
#[derive(Clone, Copy, Debug, PartialEq, Eq)]
pub struct Spot {
    pub line: u32,
    pub column: u32,
}

/// The line and the column of an offset, which may be the text's end. LF alone ends a line.
pub fn spot_at(text: &Text, at: u32) -> Spot
    requires { at ≤ length text.now }
    ensures { IsSpot text.now at result.line result.column }
{
    // What `len` ensures bounds the line and the column.
    let _length = text.len();
    let mut line = 1;
    let mut column = 1;
    for i in 0..at {
        if ends_line(text.at(i)) {
            line += 1;
            column = 1;
        } else {
            column += 1;
        }
    }
    Spot { line, column }
}

// Whether the character is LF.
fn ends_line(character: char) -> bool
    ensures { IsTrue result ↔ (character ≡ line_feed) }
{
    character == '\n'
}
