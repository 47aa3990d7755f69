//! A text that grows.

ghost use Rattle.std.specs.Prelude.{◌≡◌, [], ◌∷◌, ◌++◌, length, OnOk};

use sl_base::Name;
use std::alloc::{AllocError, Global};
use std::marker::Model;

/// The characters of a text so far.
#[derive(Drop)]
pub struct Letters {
    text: String,
}

impl Model for Letters {
    ghost use Rattle.std.specs.Prelude.{List, ℕ};
    ghost use Rattle.std.specs.Str.{chars};
    ghost use Rattle.std.specs.String.{string_bytes};

    ghost Value = { List ℕ };

    ghost view = { λ t. chars (string_bytes t.text) };
}

impl Letters {
    /// No characters yet.
    pub fn new(alloc: Global) -> Letters
        ensures { result ≡ [] }
    {
        Letters {
            text: String::new(alloc),
        }
    }

    /// Puts a character behind the others.
    pub fn push(&mut self, c: char) -> Result<(), AllocError>
        ensures { OnOk result (self.new ≡ self.old ++ c ∷ []) }
    {
        self.text.push(c)
    }

    /// The characters as a name.
    pub fn into_name(self) -> Name
        ensures { result ≡ self }
    {
        let Letters { text } = self;
        Name::from_string(text)
    }
}
