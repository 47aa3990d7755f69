//! Whether a program can have objects of a class. Plain, for tests on small programs.

ghost use Rattle.std.specs.Prelude.{◌≡◌, ◌↔◌, IsTrue};
ghost use Rattle.ty_complete.specs.Complete.{HasObjects};
ghost use Rattle.ty_complete.specs.Finding.{makes_other};

use crate::creation::made;
use ty_conform::is_object;
use ty_prog::{Node, Program};
use ty_walk::{Rule, holds_in_program};

/// Whether the class is no object and no node makes an object of it.
pub(crate) fn lacks_objects(p: &Program, class: u32) -> bool
    ensures { IsTrue result ↔ (HasObjects p.now class → ⊥) }
{
    if is_object(p.classes.as_slice(), class) {
        return false;
    }
    holds_in_program(&OthersMade { class }, p)
}

// A node doesn't make an object of the class.
#[derive(Clone, Copy)]
struct OthersMade {
    class: u32,
}

impl Rule for OthersMade {
    ghost use Rattle.ty_complete.specs.Finding.{makes_other};

    ghost holds = { λ rule. makes_other rule.class };

    fn holds(&self, node: Node<'_>) -> bool {
        match made(node) {
            Some(class) => self.class != class,
            None => true,
        }
    }
}
