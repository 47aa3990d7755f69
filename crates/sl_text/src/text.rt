//! A text as the list of its characters.

ghost use Rattle.std.specs.Prelude.{◌≡◌, ◌<◌, ◌≤◌, ◌^◌, length, slice_index};

use std::marker::Model;

/// The characters of a source text, at most 2^20.
#[derive(Debug, Drop)]
pub struct Text {
    chars: Vec<char>,
}

impl Model for Text {
    ghost use Rattle.std.specs.Prelude.{List, ℕ, ◌≤◌, ◌^◌, length};
    ghost use Rattle.std.specs.Coded.{coded_list, coded_ℕ};

    ghost Value = { List ℕ };

    ghost coded = { coded_list coded_ℕ };

    ghost view = { λ t. t.chars.items };

    ghost invariant = { λ t. length t.chars.items ≤ 2 ^ 20 };
}

impl Text {
    /// The text of these characters; it allocates nothing.
    pub(crate) fn from_chars(chars: Vec<char>) -> Text
        requires { length chars.items ≤ 2 ^ 20 }
        ensures { result ≡ chars.items }
    {
        Text { chars }
    }

    /// The characters.
    pub fn as_slice(&self) -> &[char]
        ensures value { result.now ≡ self.now }
        ensures limit { length result.now ≤ 2 ^ 20 }
    {
        self.chars.as_slice()
    }

    /// The number of characters.
    pub fn len(&self) -> u32
        ensures value { result ≡ length self.now }
        ensures limit { result ≤ 2 ^ 20 }
    {
        self.chars.len() as u32
    }

    /// The character at `i`, counted from 0.
    pub fn at(&self, i: u32) -> char
        requires { i < length self.now }
        ensures { result ≡ slice_index self.now i }
    {
        self.chars[i as usize]
    }
}
