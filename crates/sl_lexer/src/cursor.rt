//! The characters that are still to be read.

ghost use Rattle.std.specs.Prelude.{◌≡◌, length, drop};
ghost use Rattle.sl_lexer.specs.Characters.{first};

use std::marker::Model;

/// A stretch of characters that is read from its begin.
#[derive(Drop)]
pub struct Cursor<'a> {
    left: &'a [char],
}

impl<'a> Model for Cursor<'a> {
    ghost use Rattle.std.specs.Prelude.{List, ℕ};

    ghost Value = { List ℕ };

    ghost view = { λ c. c.left.now };
}

impl<'a> Cursor<'a> {
    /// All of these characters.
    pub fn new(left: &'a [char]) -> Cursor<'a>
        ensures { result ≡ left.now }
    {
        Cursor { left }
    }

    /// How many characters are left.
    pub fn len(&self) -> usize
        ensures { result ≡ length self.now }
    {
        self.left.len()
    }

    /// The next character.
    pub fn peek(&self) -> Option<char>
        ensures { result ≡ first self.now }
    {
        self.left.first().copied()
    }

    /// Goes past a character.
    pub fn skip(&mut self)
        ensures { self.new ≡ drop 1 self.old }
    {
        if let [_, left @ ..] = self.left {
            self.left = left;
        }
    }
}
