//! The operand stack of a frame.

ghost use Rattle.std.specs.Prelude.{◌≡◌, [], ◌∷◌, ◌+◌, ◌<◌, ◌≤◌, ◌↔◌, length, drop, slice_get, IsTrue, nat_le, if◌then◌else◌, IfOk, MatchOption};
ghost use Rattle.vm_state.specs.Values.{width, depth};

use crate::value::Value;
use std::alloc::{AllocError, Global};
use std::marker::Model;

/// Operands, with room for so many units of depth, of which a Long takes two (JVMS 2.6.2). Contracts see them from the top on.
#[derive(Drop)]
pub struct Operands {
    items: Vec<Value>,
    room: usize,
    taken: usize,
}

impl Model for Operands {
    ghost use Rattle.std.specs.Prelude.{◌≡◌, ◌≤◌, reverse, vec_capacity};
    ghost use Rattle.vm_state.specs.Held.{Held};

    ghost Value = { Held };

    ghost use Rattle.vm_state.specs.Values.{depth};

    ghost view = { λ s. record { values = reverse s.items.items; room = s.room } };

    ghost invariant = { λ s. (s.taken ≡ depth (reverse s.items.items)) × (s.taken ≤ s.room) × (s.room ≤ vec_capacity s.items) };
}

impl Operands {
    /// No operands, with room for so many units.
    pub fn with_room(alloc: Global, room: u16) -> Result<Operands, AllocError>
        ensures { IfOk result (λ s. s ≡ record { values = []; room = room }) }
    {
        Ok(Operands {
            items: Vec::with_capacity(alloc, room as usize)?,
            room: room as usize,
            taken: 0,
        })
    }

    /// How many values they are.
    #[inline]
    pub fn count(&self) -> usize
        ensures { result ≡ length self.now.values }
    {
        self.items.len()
    }

    /// Whether there is room for so many units more.
    #[inline]
    pub fn fits(&self, width: usize) -> bool
        ensures { IsTrue result ↔ (depth self.now.values + width ≤ self.now.room) }
    {
        width <= self.room - self.taken
    }

    /// The value on top.
    #[inline]
    pub fn top(&self) -> Option<Value>
        ensures { MatchOption result (self.now.values ≡ []) (λ top. self.now.values ≡ top ∷ drop 1 self.now.values) }
    {
        match self.items.last() {
            Some(v) => Some(*v),
            None => None,
        }
    }

    /// The value on top and the one under it.
    #[inline]
    pub fn top_two(&self) -> Option<(Value, Value)>
        ensures values { MatchOption result (length self.now.values < 2) (λ two. self.now.values ≡ two.0 ∷ two.1 ∷ drop 2 self.now.values) }
        ensures room { MatchOption result (Unit {0}) (λ two. depth (drop 2 self.now.values) + 2 ≤ self.now.room) }
    {
        let n = self.items.len();
        if n < 2 {
            None
        } else {
            Some((self.items[n - 1], self.items[n - 2]))
        }
    }

    /// The value with this number, from the top.
    #[inline]
    pub fn get(&self, at: usize) -> Option<Value>
        ensures { result ≡ slice_get self.now.values at }
    {
        let n = self.items.len();
        if at < n {
            Some(self.items[n - 1 - at])
        } else {
            None
        }
    }

    /// Takes the value on top off.
    #[inline]
    pub fn pop(&mut self) -> Option<Value>
        ensures values { MatchOption result ((self.old.values ≡ []) × (self.new.values ≡ [])) (λ top. (self.old.values ≡ top ∷ self.new.values) × (depth self.new.values + width top ≤ self.new.room)) }
        ensures room { self.new.room ≡ self.old.room }
    {
        match self.items.pop() {
            Some(v) => {
                self.taken -= v.width();
                Some(v)
            }
            None => None,
        }
    }

    /// Puts a value on top, which has to fit.
    #[inline]
    pub fn push(&mut self, v: Value)
        requires { depth self.old.values + width v ≤ self.old.room }
        ensures { self.new ≡ record { values = v ∷ self.old.values; room = self.old.room } }
    {
        self.taken += v.width();
        self.items.push_reserved(v);
    }

    /// Whether they take so many units or more.
    #[inline]
    pub fn is_deep(&self, units: usize) -> bool
        ensures { result ≡ nat_le units (depth self.now.values) }
    {
        units <= self.taken
    }

    /// Takes two values off, and puts one on top.
    #[inline]
    pub fn replace_two(&mut self, v: Value)
        requires two { 2 ≤ length self.old.values }
        requires room { depth (drop 2 self.old.values) + width v ≤ self.old.room }
        ensures { self.new ≡ record { values = v ∷ drop 2 self.old.values; room = self.old.room } }
    {
        let _ = self.pop();
        let _ = self.pop();
        self.push(v);
    }

    /// Puts the top two in the other order.
    #[inline]
    pub fn turn(&mut self, top: Value, under: Value)
        requires { self.old.values ≡ under ∷ top ∷ drop 2 self.old.values }
        ensures { self.new ≡ record { values = top ∷ under ∷ drop 2 self.old.values; room = self.old.room } }
    {
        let _ = self.pop();
        let _ = self.pop();
        self.push(under);
        self.push(top);
    }

    // Each turn takes one more off.
    #[tactic(auto, using(crate::proofs::Drops::drop_one_more))]
    /// Takes so many values off the top, or all.
    #[inline]
    pub fn take_off(&mut self, count: usize)
        ensures { self.new ≡ record { values = drop count self.old.values; room = self.old.room } }
    {
        for n in 0..count {
            let _ = self.pop();
        }
    }

    /// Leaves this value alone, where there is room for it.
    #[inline]
    pub fn only(&mut self, v: Value) -> bool
        ensures fits { result ≡ nat_le (width v) self.old.room }
        ensures values { self.new ≡ record { values = (if nat_le (width v) self.old.room then v ∷ [] else self.old.values); room = self.old.room } }
    {
        if v.width() <= self.room {
            self.items.clear();
            self.taken = 0;
            self.push(v);
            true
        } else {
            false
        }
    }
}
