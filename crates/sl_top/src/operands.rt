ghost use Rattle.std.specs.Prelude.{◌≡◌, [], ◌∷◌, OnOk, OnErr, MatchOption};

use crate::NoMemory;
use std::alloc::Global;
use std::marker::Model;

/// The operands of the private machine; contracts see the list of them, the topmost first.
#[derive(Debug, Drop)]
pub struct Operands {
    items: Vec<i32>,
}

impl Model for Operands {
    ghost use Rattle.std.specs.Prelude.{List, ℤ, reverse};
    ghost use Rattle.std.specs.Coded.{coded_list, coded_ℤ};

    ghost Value = { List ℤ };

    ghost view = { λ operands. reverse operands.items.items };
}

impl Operands {
    /// No operands.
    pub fn new(alloc: Global) -> Operands
        ensures { result ≡ [] }
    {
        Operands {
            items: Vec::new(alloc),
        }
    }

    /// Puts an operand on top.
    pub fn push(&mut self, operand: i32) -> Result<(), NoMemory>
        ensures ok { OnOk result (self.new ≡ operand ∷ self.old) }
        ensures err { OnErr result (self.new ≡ self.old) }
    {
        self.items.push(operand)?;
        Ok(())
    }

    /// Takes the topmost operand.
    pub fn pop(&mut self) -> Option<i32>
        ensures { MatchOption result ((self.old ≡ []) × (self.new ≡ [])) (λ top. self.old ≡ top ∷ self.new) }
    {
        self.items.pop()
    }
}
