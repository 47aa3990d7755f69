//! Nodes at which a thread stands.

ghost use Rattle.std.specs.Prelude.{◌≡◌};
ghost use Rattle.ty_prog.specs.Node.{tree_of};

use std::marker::Model;
use ty_prog::Node;

/// A node of a program, which contracts see as its tree.
#[derive(Drop)]
pub struct Spot<'p> {
    node: Node<'p>,
}

impl<'p> Model for Spot<'p> {
    ghost use Rattle.ty_prog.specs.Node.{tree_of};
    ghost use Rattle.ty_prog.specs.Tree.{Tree};
    ghost use Rattle.sm_state.specs.TreeCode.{coded_tree};

    ghost Value = { Tree };

    ghost coded = { coded_tree };

    ghost view = { λ s. tree_of s.node };
}

impl<'p> Spot<'p> {
    /// This node.
    pub fn new(node: Node<'p>) -> Spot<'p>
        ensures { result ≡ tree_of node.entry }
    {
        Spot { node }
    }

    /// The node itself.
    pub fn node(&self) -> Node<'p>
        ensures { tree_of result ≡ self.now }
    {
        self.node
    }
}
