//! Stacks.

ghost use Rattle.std.specs.Prelude.{◌≡◌, [], ◌∷◌, ◌<◌, length, drop, ◌≤◌, slice_get, MatchOption, OnOk, OnErr, IfErr, Some};
ghost use Rattle.std.specs.Option.{option_copied};
ghost use Rattle.std.specs.Borrow.{sem};

use std::alloc::{AllocFailed, Global};
use std::marker::Model;

/// A `Vec` that contracts see as its items from the last to the first.
#[derive(Debug, Drop)]
pub struct Stack<T> {
    items: Vec<T>,
}

impl<T> Model for Stack<T> {
    ghost use Rattle.std.specs.Prelude.{List, reverse};
    ghost use Rattle.std.specs.Coded.{coded_list};

    ghost Value = { List T };

    ghost coded = { coded_list T.code };

    ghost view = { λ s. reverse s.items.items };
}

impl<T> Stack<T> {
    ghost use Rattle.vm_state.specs.Lends.{lends_top, lends_under};

    /// No items.
    pub fn new(alloc: Global) -> Stack<T>
        ensures { result ≡ [] }
    {
        Stack {
            items: Vec::new(alloc),
        }
    }

    /// How many items they are.
    #[inline]
    pub fn len(&self) -> usize
        ensures { result ≡ length self.now }
    {
        self.items.len()
    }

    /// The item on top.
    #[inline]
    pub fn top(&self) -> Option<&T>
        ensures { MatchOption result (self.now ≡ []) (λ top. self.now ≡ top.now ∷ drop 1 self.now) }
    {
        self.items.last()
    }

    /// The item with this number, from the top.
    #[inline]
    pub fn get(&self, at: usize) -> Option<&T>
        ensures { option_copied result ≡ slice_get self.now at }
    {
        if at < self.items.len() {
            self.items.get(self.items.len() - 1 - at)
        } else {
            None
        }
    }

    /// The item with this number, from the top.
    #[inline]
    pub fn at(&self, at: usize) -> &T
        requires { at < length self.now }
        ensures { slice_get self.now at ≡ Some result.now }
    {
        &self.items[self.items.len() - 1 - at]
    }

    /// The item on top, to be changed.
    #[inline]
    pub fn top_mut(&mut self) -> &mut T
        requires { 0 < length self.old }
        ensures* writes_back { sem 𝓛 (lends_top T.row self.entry result) }
        ensures value { slice_get self.old 0 ≡ Some result.now }
    {
        let last = self.items.len() - 1;
        &mut self.items[last]
    }

    /// The item under the top.
    #[inline]
    pub fn under_top_mut(&mut self) -> &mut T
        requires { 1 < length self.old }
        ensures* writes_back { sem 𝓛 (lends_under T.row self.entry result) }
        ensures value { slice_get self.old 1 ≡ Some result.now }
    {
        let at = self.items.len() - 2;
        &mut self.items[at]
    }

    /// Puts an item on top, or hands it back.
    #[inline]
    pub fn push(&mut self, item: T) -> Result<(), AllocFailed<T>>
        ensures ok { OnOk result (self.new ≡ item ∷ self.old) }
        ensures err { IfErr result (λ e. (e.value ≡ item) × (self.new ≡ self.old)) }
    {
        self.items.push(item)
    }

    /// Takes the item on top off.
    #[inline]
    pub fn pop(&mut self) -> Option<T>
        ensures { MatchOption result ((self.old ≡ []) × (self.new ≡ [])) (λ top. self.old ≡ top ∷ self.new) }
    {
        self.items.pop()
    }

    /// Takes so many items off the top, or all.
    #[inline]
    pub fn take_off(&mut self, count: usize)
    where
        T: Drop,
        ensures { self.new ≡ drop count self.old }
    {
        let kept = self.items.len().saturating_sub(count);
        self.items.truncate(kept);
    }
}
