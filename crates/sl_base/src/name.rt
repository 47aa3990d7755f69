ghost use Rattle.std.specs.Prelude.{◌≡◌, ◌↔◌, IfOk, IsTrue, encode_utf8_all};
ghost use Rattle.std.specs.Str.{chars, bytes_eq};
ghost use Rattle.std.specs.String.{string_bytes};

use std::alloc::{AllocError, Global};
use std::marker::Model;

/// A text, as the list of its characters.
#[derive(Debug, Drop)]
pub struct Name {
    text: String,
}

impl Model for Name {
    ghost use Rattle.std.specs.Prelude.{List, ℕ};
    ghost use Rattle.std.specs.Coded.{coded_list, coded_ℕ};
    ghost use Rattle.std.specs.Str.{chars};
    ghost use Rattle.std.specs.String.{string_bytes};

    ghost Value = { List ℕ };

    ghost coded = { coded_list coded_ℕ };

    ghost view = { λ n. chars (string_bytes n.text) };
}

impl Name {
    /// The name with this text; it allocates nothing.
    pub fn from_string(text: String) -> Name
        ensures { result ≡ chars (string_bytes text) }
    {
        Name { text }
    }

    /// A name with a copy of this text.
    pub fn from_text(alloc: Global, text: &str) -> Result<Name, AllocError>
        ensures { IfOk result (λ n. n ≡ chars text.now) }
    {
        Ok(Name {
            text: String::from_str(alloc, text)?,
        })
    }

    /// The text, in UTF-8.
    pub fn as_str(&self) -> &str
        ensures bytes { result.now ≡ encode_utf8_all self.now }
        ensures characters { chars result.now ≡ self.now }
    {
        self.text.as_str()
    }

    /// The text itself; it allocates nothing.
    pub fn into_string(self) -> String
        ensures bytes { string_bytes result ≡ encode_utf8_all self }
        ensures characters { chars (string_bytes result) ≡ self }
    {
        let Name { text } = self;
        text
    }

    /// A name equal to this one.
    pub fn copy(&self, alloc: Global) -> Result<Name, AllocError>
        ensures { IfOk result (λ n. n ≡ self.now) }
    {
        Name::from_text(alloc, self.as_str())
    }
}

impl PartialEq for Name {
    ghost use Rattle.std.specs.Str.{bytes_eq};
    ghost use Rattle.std.proofs.Common.{rules};
    ghost use Rattle.std.specs.Cmp.Rules.{comparing};

    ghost eq = { bytes_eq };

    ghost laws = { Prim.search (comparing, rules) };

    fn eq(&self, other: &Name) -> bool
        ensures value { result ≡ bytes_eq self.now other.now }
        ensures same { IsTrue result ↔ (self.now ≡ other.now) }
    {
        self.as_str() == other.as_str()
    }
}

impl Eq for Name {
    ghost use Rattle.std.proofs.Common.{rules};
    ghost use Rattle.std.specs.Cmp.Rules.{comparing};

    ghost laws = { Prim.search (comparing, rules) };
}
