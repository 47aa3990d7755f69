//! Whether objects are made of concrete classes alone. Plain, for tests on small programs.

ghost use Rattle.std.specs.Prelude.{◌≡◌, ◌↔◌, IsTrue, true, slice_get, option_map};
ghost use Rattle.std.specs.Option.{unwrap_or};
ghost use Rattle.ty_complete.specs.Complete.{is_made_kind, made, made_fits, NewIsConcrete};
ghost use Rattle.ty_prog.specs.Node.{tree_of};

use sqlite_items::at;
use ty_prog::{Class, Expr, Kind, Node, Program};
use ty_walk::{Rule, holds_in_program};

/// Whether no node makes an object of a trait, of an abstract class or of an object (SLS 5.1, 5.5, 6.10).
pub fn new_is_concrete(p: &Program) -> bool
    ensures { IsTrue result ↔ NewIsConcrete p.now }
{
    holds_in_program(&ConcreteNew { p }, p)
}

// A node that makes an object names no trait, no abstract class and no object.
#[derive(Clone, Copy)]
struct ConcreteNew<'a> {
    p: &'a Program,
}

impl<'a> Rule for ConcreteNew<'a> {
    ghost use Rattle.ty_complete.specs.Complete.{made_fits};

    ghost holds = { λ rule. made_fits rule.p.now.classes };

    fn holds(&self, node: Node<'_>) -> bool {
        match made(node) {
            Some(class) => is_concrete(self.p.classes.as_slice(), class),
            None => true,
        }
    }
}

/// The class that a node makes an object of.
pub(crate) fn made(node: Node<'_>) -> Option<u32>
    ensures { result ≡ made (tree_of node.entry) }
{
    match node {
        Node::Expr(Expr::New { class, .. }) => Some(*class),
        _ => None,
    }
}

// Whether objects may be made of a class; so of a number that is no class's.
fn is_concrete(classes: &[Class], class: u32) -> bool
    ensures { result ≡ unwrap_or (option_map (λ c. is_made_kind c.kind) (slice_get classes.now class)) true }
{
    match at(classes, class as usize) {
        Some(class) => is_made_kind(class.kind),
        None => true,
    }
}

fn is_made_kind(kind: Kind) -> bool
    ensures { result ≡ is_made_kind kind }
{
    matches!(kind, Kind::Class)
}
