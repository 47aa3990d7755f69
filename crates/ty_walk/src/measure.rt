//! Numbers that the nodes of a tree count.

ghost use Rattle.std.specs.Prelude.{◌≡◌, ℕ};
ghost use Rattle.ty_prog.specs.Shape.{Shape, shape};
ghost use Rattle.ty_prog.specs.Node.{tree_of};

use ty_prog::Node;

/// What is summed over the nodes of a tree.
pub trait Measure {
    // What a node of a shape counts, without its children.
    ghost of: { Self → Shape → ℕ };

    /// What a node counts, without its children.
    fn of(&self, node: Node<'_>) -> u32
        ensures { result ≡ of self.now (shape (tree_of node.entry)) };
}
