//! The nodes of trees.

ghost use Rattle.std.specs.Prelude.{◌≡◌, ◌<◌, ◌^◌, slice_get, option_map, OnSome};
ghost use Rattle.ty_prog.specs.Tree.{children};
ghost use Rattle.ty_prog.specs.Node.{tree_of, tree_at};

use crate::case::Case;
use crate::children::{case_child, constructor_child, expr_child, pattern_child};
use crate::class::Class;
use crate::expr::Expr;
use crate::pattern::Pattern;
use crate::stage::Stage;

/// A node of a tree, borrowed: an expression, a case or a pattern, or the constructor of a class or a stage of it.
#[derive(Clone, Copy)]
pub enum Node<'a> {
    Expr(&'a Expr),
    Case(&'a Case),
    Pattern(&'a Pattern),
    /// Its children are its stages and its expressions, in the order in which they are entered (SLS 5.1).
    Constructor(&'a Class),
    Stage(Stage),
}

/// The child of a node with this number, in order of evaluation and counted from 0; None where there are no more.
pub fn child<'a>(node: Node<'a>, i: usize) -> Option<Node<'a>>
    ensures { option_map tree_of result ≡ slice_get (children (tree_of node.entry)) i }
{
    child_at(node, i as u128)
}

/// The same for any number. The lists of a node together may have more items than a usize counts.
pub(crate) fn child_at<'a>(node: Node<'a>, i: u128) -> Option<Node<'a>>
    ensures value { option_map tree_of result ≡ slice_get (children (tree_of node.entry)) i }
    ensures within { OnSome result (i < 2 ^ 68) }
{
    match node {
        Node::Expr(e) => expr_child(e, i),
        Node::Case(c) => case_child(c, i),
        Node::Pattern(p) => pattern_child(p, i),
        Node::Constructor(class) => constructor_child(class, i),
        Node::Stage(_) => None,
    }
}

/// The node at a place, which lists the numbers of children from the root on; None where there is none.
pub fn node_at<'a>(root: Node<'a>, place: &[u32]) -> Option<Node<'a>>
    ensures { option_map tree_of result ≡ tree_at (tree_of root.entry) place.now }
{
    let mut node = root;
    for i in place {
        match child(node, *i as usize) {
            Some(next) => node = next,
            None => return None,
        }
    }
    Some(node)
}
