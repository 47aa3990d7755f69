//! Lists whose items are changed where they stand.

ghost use Rattle.std.specs.Prelude.{◌≡◌, [], ◌∷◌, ◌++◌, ◌<◌, length, take, slice_get, slice_set, OnOk, OnErr, Some};
ghost use Rattle.std.specs.Option.{option_copied};
ghost use Rattle.std.specs.Borrow.{sem};

use std::alloc::{AllocError, Global};
use std::marker::Model;

/// A `Vec` that contracts see as the list of its items.
#[derive(Debug, Drop)]
pub struct Sequence<T> {
    items: Vec<T>,
}

impl<T> Model for Sequence<T> {
    ghost use Rattle.std.specs.Prelude.{List};
    ghost use Rattle.std.specs.Coded.{coded_list};

    ghost Value = { List T };

    ghost coded = { coded_list T.code };

    ghost view = { λ s. s.items.items };
}

impl<T> Sequence<T> {
    ghost use Rattle.sm_state.specs.Lends.{lends_item};

    /// An empty list.
    pub fn new(alloc: Global) -> Sequence<T>
        ensures { result ≡ [] }
    {
        Sequence {
            items: Vec::new(alloc),
        }
    }

    /// How many items there are.
    pub fn len(&self) -> usize
        ensures { result ≡ length self.now }
    {
        self.items.len()
    }

    /// The item with this number, if there is one.
    pub fn get(&self, at: usize) -> Option<&T>
        ensures { option_copied result ≡ slice_get self.now at }
    {
        self.items.get(at)
    }

    /// The item with this number, to be changed.
    pub fn at_mut(&mut self, at: usize) -> &mut T
        requires { at < length self.old }
        ensures* writes_back { sem 𝓛 (lends_item T.row self.entry at result) }
        ensures value { slice_get self.old at ≡ Some result.now }
    {
        &mut self.items[at]
    }

    /// Adds an item at the end. Errors: want of memory; the list stays as it was.
    pub fn push(&mut self, item: T) -> Result<(), AllocError>
    where
        T: Drop,
        ensures ok { OnOk result (self.new ≡ self.old ++ item ∷ []) }
        ensures err { OnErr result (self.new ≡ self.old) }
    {
        self.items.push(item)?;
        Ok(())
    }

    /// Another item in the place of the one with this number, if there is one.
    pub fn set(&mut self, at: usize, item: T)
    where
        T: Drop,
        ensures { self.new ≡ slice_set self.old at item }
    {
        if at < self.items.len() {
            self.items[at] = item;
        }
    }

    /// Keeps the first items alone, so many of them.
    pub fn cut(&mut self, count: usize)
    where
        T: Drop,
        ensures { self.new ≡ take count self.old }
    {
        self.items.truncate(count);
    }
}
