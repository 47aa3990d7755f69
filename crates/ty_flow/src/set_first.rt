//! Whether the locals of each part of a class are set, on every way, before they are read. Plain, for tests on small programs: each local is
//! looked for in the whole tree.

ghost use Rattle.std.specs.Prelude.{◌≡◌, ◌≤◌, ◌↔◌, IsTrue, false};
ghost use Rattle.std.specs.List.{All};
ghost use Rattle.ty_prog.specs.Node.{tree_of};
ghost use Rattle.ty_flow.specs.Uses.{passage};
ghost use Rattle.ty_flow.specs.SetFirst.{AreSetFirst};
ghost use Rattle.ty_flow.specs.Settled.{ConstructorSettled, CellSettled, MethodSettled, ClassSettled};

use crate::passing::passage;
use sqlite_items::Items;
use ty_prog::{Cell, Class, Method, Node};

/// Whether no way reads one of so many locals, past the first ones that have values, before it sets it.
pub fn are_set_first(given: usize, locals: u32, root: Node<'_>) -> bool
    ensures { IsTrue result ↔ AreSetFirst given locals (tree_of root.entry) }
{
    for local in 0..locals {
        if !is_set_first(given, local, root) {
            return false;
        }
    }
    true
}

// Whether a local has a value from the start, or no way reads it before it sets it.
fn is_set_first(given: usize, local: u32, root: Node<'_>) -> bool
    ensures { IsTrue result ↔ (given ≤ local → (passage local (tree_of root.entry)).reads ≡ false) }
{
    (local as usize) < given || !passage(local, root).reads
}

// Whether all bodies of some classes set their locals first.
pub(crate) fn classes_are_set_first(classes: &Items<Class>) -> bool
    ensures { IsTrue result ↔ All ClassSettled classes.now }
{
    classes.as_slice().iter().all(class_is_set_first)
}

// Whether all bodies of a class do.
fn class_is_set_first(class: &Class) -> bool
    ensures { IsTrue result ↔ ClassSettled class.now }
{
    parts_are_set_first(class)
}

// The same by the parts of the class.
fn parts_are_set_first(class: &Class) -> bool
    ensures { IsTrue result ↔ (ConstructorSettled class.now × All CellSettled class.now.cells × All MethodSettled class.now.methods) }
{
    constructor_is_set_first(class)
        && cells_are_set_first(class.cells.as_slice())
        && methods_are_set_first(class.methods.as_slice())
}

// Whether a constructor sets its locals first; its parameters have values.
fn constructor_is_set_first(class: &Class) -> bool
    ensures { IsTrue result ↔ ConstructorSettled class.now }
{
    are_set_first(class.params.len(), class.locals, Node::Constructor(class))
}

// Whether the initialisers of cells do.
fn cells_are_set_first(cells: &[Cell]) -> bool
    ensures { IsTrue result ↔ All CellSettled cells.now }
{
    cells.iter().all(cell_is_set_first)
}

// Whether the initialiser of a cell does.
fn cell_is_set_first(cell: &Cell) -> bool
    ensures { IsTrue result ↔ CellSettled cell.now }
{
    are_set_first(0, cell.locals, Node::Expr(&cell.init))
}

// Whether methods do.
fn methods_are_set_first(methods: &[Method]) -> bool
    ensures { IsTrue result ↔ All MethodSettled methods.now }
{
    methods.iter().all(method_is_set_first)
}

// Whether the body of a method does, if it has one; its parameters have values.
fn method_is_set_first(method: &Method) -> bool
    ensures { IsTrue result ↔ MethodSettled method.now }
{
    match &method.body {
        Some(body) => are_set_first(method.params.len(), method.locals, Node::Expr(body)),
        None => true,
    }
}
