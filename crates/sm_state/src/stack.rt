//! Lists that grow and shrink at one end.

ghost use Rattle.std.specs.Prelude.{◌≡◌, [], ◌∷◌, ◌++◌, ◌<◌, ◌≤◌, length, take, drop, slice_get, IfErr, OnOk, MatchOption, Some};
ghost use Rattle.std.specs.Option.{option_copied};
ghost use Rattle.std.specs.Borrow.{sem};

use std::alloc::{AllocFailed, Global};
use std::marker::Model;

/// A `Vec` that contracts see from its last item to its first, which are its top and its bottom.
#[derive(Debug, Drop)]
pub struct Stack<T> {
    items: Vec<T>,
}

impl<T> Model for Stack<T> {
    ghost use Rattle.std.specs.Prelude.{List, reverse};
    ghost use Rattle.std.specs.Coded.{coded_list};

    ghost Value = { List T };

    ghost coded = { coded_list T.code };

    ghost view = { λ s. reverse s.items.items };
}

impl<T> Stack<T> {
    ghost use Rattle.sm_state.specs.Lends.{lends_top};

    /// An empty stack.
    pub fn new(alloc: Global) -> Stack<T>
        ensures { result ≡ [] }
    {
        Stack {
            items: Vec::new(alloc),
        }
    }

    /// How many items there are.
    pub fn len(&self) -> usize
        ensures { result ≡ length self.now }
    {
        self.items.len()
    }

    /// The item on top.
    pub fn top(&self) -> Option<&T>
        ensures { MatchOption result (self.now ≡ []) (λ top. self.now ≡ top.now ∷ drop 1 self.now) }
    {
        self.items.last()
    }

    /// The item with this number, counted from the top.
    #[tactic(auto, using(crate::proofs::Tops::get_reverse, crate::proofs::Tops::get_past))]
    pub fn get(&self, at: usize) -> Option<&T>
        ensures { option_copied result ≡ slice_get self.now at }
    {
        if at < self.items.len() {
            self.items.get(self.items.len() - 1 - at)
        } else {
            None
        }
    }

    /// The item on top, to be changed.
    pub fn top_mut(&mut self) -> &mut T
        requires { 0 < length self.old }
        ensures* writes_back { sem 𝓛 (lends_top T.row self.entry result) }
        ensures value { slice_get self.old 0 ≡ Some result.now }
    {
        let last = self.items.len() - 1;
        &mut self.items[last]
    }

    /// Puts an item on top. Errors: want of memory, with the item handed back.
    pub fn push(&mut self, item: T) -> Result<(), AllocFailed<T>>
        ensures ok { OnOk result (self.new ≡ item ∷ self.old) }
        ensures err { IfErr result (λ e. (e.value ≡ item) × (self.new ≡ self.old)) }
    {
        self.items.push(item)
    }

    /// Takes the item off the top, if there is one.
    pub fn pop(&mut self) -> Option<T>
        ensures { MatchOption result ((self.old ≡ []) × (self.new ≡ [])) (λ top. self.old ≡ top ∷ self.new) }
    {
        self.items.pop()
    }

    /// Takes so many items off the top, or all.
    pub fn take_off(&mut self, count: usize)
    where
        T: Drop,
        ensures { self.new ≡ drop count self.old }
    {
        let kept = self.items.len().saturating_sub(count);
        self.items.truncate(kept);
    }

    /// Takes so many items out from below the top ones that stay, or all that are there.
    pub fn take_below(&mut self, kept: usize, count: usize)
    where
        T: Drop,
        ensures { self.new ≡ take kept self.old ++ drop count (drop kept self.old) }
    {
        let below = self.items.len().saturating_sub(kept);
        let left = below.saturating_sub(count);
        cut_out(&mut self.items, left, below);
    }
}

// Takes out the items from one number up to another.
fn cut_out<T: Drop>(items: &mut Vec<T>, from: usize, to: usize)
    requires ordered { from ≤ to }
    requires there { to ≤ length items.old.items }
    ensures { items.new.items ≡ take from items.old.items ++ drop to items.old.items }
{
    for n in from..to {
        drop(items.remove(from));
    }
}
