//! Sums over the nodes of a tree.

ghost use Rattle.std.specs.Prelude.{◌≡◌, ◌+◌, ◌<◌, ◌≤◌, ℕ, List, Some, min, slice_get, sum_by};
ghost use Rattle.ty_prog.specs.Node.{tree_of, tree_at};
ghost use Rattle.ty_prog.specs.Shape.{Shape, shape};
ghost use Rattle.ty_prog.specs.Tree.{Tree, children};
ghost use Rattle.ty_walk.specs.SumOver.{sum_over, nodes};

use crate::measure::Measure;
use ty_prog::{Children, Node};

/// The sum over all nodes of a tree, or 4,294,967,295 where it is more.
pub fn total<M: Measure>(measure: &M, root: Node<'_>) -> u32
    ensures { result ≡ min (sum_over (M.of measure.now) (tree_of root.entry)) 4294967295 }
{
    summing();
    let mut sum = measure.of(root);
    let mut rest = Children::of(root);
    while let Some(next) = rest.next() {
        sum = sum.saturating_add(total(measure, next));
    }
    sum
}

// Each node counts 1.
struct Ones;

impl Measure for Ones {
    ghost of = { λ measure shape. 1 };

    fn of(&self, _node: Node<'_>) -> u32 {
        1
    }
}

/// How many nodes a tree has, or 4,294,967,295 where there are more.
pub fn nodes(root: Node<'_>) -> u32
    ensures { result ≡ min (nodes (tree_of root.entry)) 4294967295 }
{
    total(&Ones, root)
}

/// The sum over a tree is what its root counts and the sums over its children. So the sum over a part, and what any node
/// above it counts, is within the sum over the tree.
pub fn summing()
    ensures root { (number : Shape → ℕ) (tree : Tree)
        → sum_over number tree ≡ number (shape tree) + sum_by (sum_over number) (children tree) }
    ensures child { (number : Shape → ℕ) (tree : Tree) (i : ℕ) (part : Tree)
        → slice_get (children tree) i ≡ Some part → number (shape tree) + sum_over number part ≤ sum_over number tree }
    ensures part { (number : Shape → ℕ) (tree : Tree) (place : List ℕ) (part : Tree)
        → tree_at tree place ≡ Some part → sum_over number part ≤ sum_over number tree }
    ensures fewer { (tree : Tree) (i : ℕ) (part : Tree) → slice_get (children tree) i ≡ Some part → nodes part < nodes tree }
{}
