//! Whether the fields of the prelude's classes are used in the prelude alone.

ghost use Rattle.std.specs.Prelude.{◌≡◌, ◌↔◌, IsTrue};
ghost use Rattle.std.specs.List.{All};
ghost use Rattle.ty_prog.specs.Node.{tree_of};
ghost use Rattle.ty_walk.specs.Everywhere.{AllNodesOf};
ghost use Rattle.ty_complete.specs.Complete.{fields_of, keeps_out, PreludeIsClosed};

use crate::own_classes::own_classes;
use ty_prog::prelude_number::PRELUDE_LEN;
use ty_prog::{Class, Expr, Node, Pattern, Program};
use ty_walk::{Rule, holds_in_class};

/// Whether no node outside the prelude reads, stores into or takes apart a field of a class of the prelude.
pub fn prelude_is_closed(p: &Program) -> bool
    ensures { IsTrue result ↔ PreludeIsClosed p.now }
{
    own_classes(p).iter().all(class_keeps_out)
}

// Whether no node of a class touches a field of the prelude.
fn class_keeps_out(class: &Class) -> bool
    ensures { IsTrue result ↔ AllNodesOf (λ node. IsTrue (keeps_out node)) class.now }
{
    holds_in_class(&KeepingOut, class)
}

// A node uses no field of a class of the prelude.
#[derive(Clone, Copy)]
struct KeepingOut;

impl Rule for KeepingOut {
    ghost use Rattle.ty_complete.specs.Complete.{keeps_out};

    ghost holds = { λ rule. keeps_out };

    fn holds(&self, node: Node<'_>) -> bool {
        match fields_of(node) {
            Some(class) => PRELUDE_LEN <= class,
            None => true,
        }
    }
}

// The class whose fields a node reads, stores into or takes apart.
fn fields_of(node: Node<'_>) -> Option<u32>
    ensures { result ≡ fields_of (tree_of node.entry) }
{
    match node {
        Node::Expr(Expr::Get { class, .. } | Expr::Put { class, .. }) => Some(*class),
        Node::Pattern(Pattern::Make { class, .. }) => Some(*class),
        _ => None,
    }
}
