//! Rules for classes by their numbers.

ghost use Rattle.std.specs.Prelude.{◌↔◌, ℕ, IsTrue, IfOk};
ghost use Rattle.ty_prog.specs.declared.class.Class.{Class};
ghost use Rattle.ty_good.specs.Each.{EachClass};

use crate::NoMemory;
use std::alloc::Global;
use ty_prog::{Class, Program};

/// A rule for a class and its number.
pub(crate) trait ClassRule {
    // The class keeps the rule.
    ghost keeps: { Self → ℕ → Class → Type 0 };

    /// Whether a class keeps the rule. Errors: want of memory.
    fn keeps(&self, alloc: Global, number: u32, class: &Class) -> Result<bool, NoMemory>
        ensures { IfOk result (λ answer. IsTrue answer ↔ keeps self.now number class.now) };
}

/// Whether each class of a program keeps a rule. Errors: want of memory, also for more than 2^32 classes.
pub(crate) fn each_class<R: ClassRule>(
    alloc: Global,
    rule: &R,
    p: &Program,
) -> Result<bool, NoMemory>
    ensures { IfOk result (λ answer. IsTrue answer ↔ EachClass (R.keeps rule.now) p.now.classes) }
{
    each_of(alloc, rule, p.classes.as_slice())
}

// Whether a rule holds of each class, by its number.
fn each_of<R: ClassRule>(alloc: Global, rule: &R, classes: &[Class]) -> Result<bool, NoMemory>
    ensures { IfOk result (λ answer. IsTrue answer ↔ EachClass (R.keeps rule.now) classes.now) }
{
    for (number, class) in classes.iter().enumerate() {
        if number > u32::MAX as usize {
            return Err(NoMemory);
        }
        if !rule.keeps(alloc, number as u32, class)? {
            return Ok(false);
        }
    }
    Ok(true)
}
