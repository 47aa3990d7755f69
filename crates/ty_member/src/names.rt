//! Names, with a way from a name to its number.

ghost use Rattle.std.specs.Prelude.{◌≡◌, not, [], length, OnOk, IfOk};
ghost use Rattle.std.specs.Str.{chars};
ghost use Rattle.ty_member.specs.Names.{has_name, with_name, number_in};

use indexmap::IndexSet;
use sl_base::Name;
use std::alloc::{AllocError, Global};
use std::marker::Model;

/// Names, no two alike, in the order in which they were put in.
#[derive(Drop)]
pub struct Names {
    set: IndexSet<String>,
}

impl Model for Names {
    ghost use Rattle.std.specs.Prelude.{List, ℕ, map};
    ghost use Rattle.std.specs.Coded.{coded_list, coded_ℕ};
    ghost use Rattle.std.specs.Str.{chars};
    ghost use Rattle.std.specs.String.{string_bytes};

    ghost Value = { List (List ℕ) };

    ghost coded = { coded_list (coded_list coded_ℕ) };

    ghost view = { λ n. map (λ k. chars (string_bytes k)) n.set.keys };
}

impl Names {
    /// No names.
    pub fn new(alloc: Global) -> Names
        ensures { result ≡ [] }
    {
        Names {
            set: IndexSet::new(alloc),
        }
    }

    /// Puts a name behind the others, and says whether it is new.
    pub fn add(&mut self, alloc: Global, name: &str) -> Result<bool, AllocError>
        ensures is_new { IfOk result (λ is_new. is_new ≡ not (has_name self.old (chars name.now))) }
        ensures names { OnOk result (self.new ≡ with_name self.old (chars name.now)) }
    {
        let text = String::from_str(alloc, name)?;
        Ok(self.set.insert_full(text)?.1)
    }

    /// The number of a name.
    pub fn number_of(&self, name: &Name) -> Option<usize>
        ensures { result ≡ number_in self.now name.now }
    {
        self.set.get_index_of(name.as_str())
    }

    /// How many names there are.
    pub fn len(&self) -> usize
        ensures { result ≡ length self.now }
    {
        self.set.len()
    }
}
