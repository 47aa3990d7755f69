//! Whether each node keeps a rule.

ghost use Rattle.std.specs.Prelude.{◌↔◌, IsTrue};
ghost use Rattle.std.specs.List.{All};
ghost use Rattle.ty_prog.specs.Node.{tree_of};
ghost use Rattle.ty_walk.specs.Everywhere.{Everywhere, AllNodesOf, AllNodes};
ghost use Rattle.ty_walk.specs.Parts.{KeptInCell, KeptInMethod};

use crate::rule::Rule;
use crate::totals::summing;
use ty_prog::{Cell, Children, Class, Method, Node, Program};

/// Whether each node of a tree, its root included, keeps a rule.
pub fn holds_everywhere<R: Rule>(rule: &R, root: Node<'_>) -> bool
    ensures { IsTrue result ↔ Everywhere (λ node. IsTrue (R.holds rule.now node)) (tree_of root.entry) }
{
    summing();
    if !rule.holds(root) {
        return false;
    }
    let mut rest = Children::of(root);
    while let Some(next) = rest.next() {
        if !holds_everywhere(rule, next) {
            return false;
        }
    }
    true
}

/// Whether each node that stands in a class keeps a rule.
pub fn holds_in_class<R: Rule>(rule: &R, class: &Class) -> bool
    ensures { IsTrue result ↔ AllNodesOf (λ node. IsTrue (R.holds rule.now node)) class.now }
{
    if !holds_everywhere(rule, Node::Constructor(class)) {
        return false;
    }
    if !holds_in_cells(rule, class.cells.as_slice()) {
        return false;
    }
    holds_in_methods(rule, class.methods.as_slice())
}

fn holds_in_cells<R: Rule>(rule: &R, cells: &[Cell]) -> bool
    ensures { IsTrue result ↔ All (KeptInCell (λ node. IsTrue (R.holds rule.now node))) cells.now }
{
    for cell in cells {
        if !holds_everywhere(rule, Node::Expr(&cell.init)) {
            return false;
        }
    }
    true
}

fn holds_in_methods<R: Rule>(rule: &R, methods: &[Method]) -> bool
    ensures { IsTrue result ↔ All (KeptInMethod (λ node. IsTrue (R.holds rule.now node))) methods.now }
{
    for method in methods {
        if !holds_in_method(rule, method) {
            return false;
        }
    }
    true
}

fn holds_in_method<R: Rule>(rule: &R, method: &Method) -> bool
    ensures { IsTrue result ↔ KeptInMethod (λ node. IsTrue (R.holds rule.now node)) method.now }
{
    match &method.body {
        Some(body) => holds_everywhere(rule, Node::Expr(body)),
        None => true,
    }
}

/// Whether each node of a program keeps a rule.
pub fn holds_in_program<R: Rule>(rule: &R, p: &Program) -> bool
    ensures { IsTrue result ↔ AllNodes (λ node. IsTrue (R.holds rule.now node)) p.now }
{
    holds_in_classes(rule, p.classes.as_slice())
}

fn holds_in_classes<R: Rule>(rule: &R, classes: &[Class]) -> bool
    ensures { IsTrue result ↔ All (AllNodesOf (λ node. IsTrue (R.holds rule.now node))) classes.now }
{
    for class in classes {
        if !holds_in_class(rule, class) {
            return false;
        }
    }
    true
}
