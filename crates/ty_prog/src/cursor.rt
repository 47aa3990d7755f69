//! The children of a node, one after the other.

ghost use Rattle.std.specs.Prelude.{◌≡◌, ◌+◌, slice_get, option_map, MatchOption};
ghost use Rattle.ty_prog.specs.Tree.{children};
ghost use Rattle.ty_prog.specs.Node.{tree_of};

use crate::node::{Node, child_at};

/// A cursor over the children of a node, in order of evaluation.
#[derive(Clone, Copy)]
pub struct Children<'a> {
    pub node: Node<'a>,
    /// The number of the next child.
    pub at: u128,
}

impl<'a> Children<'a> {
    /// All children of a node.
    pub fn of(node: Node<'a>) -> Children<'a>
        ensures node { result.node ≡ node.entry }
        ensures at { result.at ≡ 0 }
    {
        Children { node, at: 0 }
    }

    /// The next child; None behind the last one.
    pub fn next(&mut self) -> Option<Node<'a>>
        ensures child { option_map tree_of result ≡ slice_get (children (tree_of self.old.node)) self.old.at }
        ensures node { self.new.node ≡ self.old.node }
        ensures at { MatchOption result (self.new.at ≡ self.old.at) (λ next. self.new.at ≡ self.old.at + 1) }
    {
        let next = child_at(self.node, self.at);
        if next.is_some() {
            self.at += 1;
        }
        next
    }
}
