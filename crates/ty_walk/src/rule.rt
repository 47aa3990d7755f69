//! Rules that a node of a tree keeps or breaks.

ghost use Rattle.std.specs.Prelude.{◌≡◌, Bool};
ghost use Rattle.ty_prog.specs.Tree.{Tree};
ghost use Rattle.ty_prog.specs.Node.{tree_of};

use ty_prog::Node;

/// A rule for nodes.
pub trait Rule {
    // Whether a node keeps the rule.
    ghost holds: { Self → Tree → Bool };

    /// Whether a node keeps the rule.
    fn holds(&self, node: Node<'_>) -> bool
        ensures { result ≡ holds self.now (tree_of node.entry) };
}
