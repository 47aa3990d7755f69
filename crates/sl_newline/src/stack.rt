//! The regions that are open, the innermost first.

ghost use Rattle.std.specs.Prelude.{◌≡◌, ◌∷◌, OnOk, []};
ghost use Rattle.sl_newline.specs.Regions as spec;

use crate::region::Region;
use std::alloc::{AllocError, Global};
use std::marker::Model;

/// The regions that are open.
#[derive(Drop)]
pub struct Stack {
    front: Option<Region>,
    below: Vec<Region>,
}

impl Model for Stack {
    ghost use Rattle.std.specs.Prelude.{List, ◌++◌, reverse, option_to_list, None, ◌≡◌, []};
    ghost use Rattle.sl_newline.specs.declared.region.Region.{Region};

    ghost Value = { List Region };

    ghost view = { λ s. option_to_list s.front ++ reverse s.below.items };

    ghost invariant = { λ s. s.front ≡ None → s.below.items ≡ [] };
}

impl Stack {
    /// No region yet.
    pub fn new(alloc: Global) -> Stack
        ensures { result ≡ [] }
    {
        Stack {
            front: None,
            below: Vec::new(alloc),
        }
    }

    /// The innermost region, if one is open.
    pub fn front(&self) -> Option<Region>
        ensures { result ≡ spec.front self.now }
    {
        self.front
    }

    /// Closes the innermost region.
    pub fn pop(&mut self)
        ensures { self.new ≡ spec.pop self.old }
    {
        self.front = self.below.pop();
    }

    /// Opens a region inside the others.
    pub fn push(&mut self, region: Region) -> Result<(), AllocError>
        ensures ok { OnOk result (self.new ≡ region ∷ self.old) }
    {
        if let Some(q) = self.front {
            self.below.push(q)?;
        }
        self.front = Some(region);
        Ok(())
    }
}
