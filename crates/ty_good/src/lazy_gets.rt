//! Where lazy members are read.

ghost use Rattle.std.specs.Prelude.{◌≡◌, ◌↔◌, IsTrue, IfOk, min, nat_eq};
ghost use Rattle.std.specs.List.{list_all};
ghost use Rattle.ty_prog.specs.declared.expr.Expr.{out-Expr};
ghost use Rattle.ty_prog.specs.Node.{tree_of};
ghost use Rattle.ty_prog.specs.Tree.{ConstructorTree};
ghost use Rattle.ty_good.specs.LazyGets.{lazy_gets, is_cell_named, level_gets_own, gets_none, method_gets_own, class_gets_own, LazyGetsStand};

use crate::NoMemory;
use crate::each::{ClassRule, each_class};
use sqlite_items::at;
use std::alloc::Global;
use ty_prog::{Cell, Class, Expr, Method, Name, Node, Program};
use ty_walk::{Measure, total};

/// Whether, until the lowering of lazy members, each read of one is the whole body of the method that has its name; k is
/// from 0 to 4. Errors: want of memory, for more than 2^32 classes.
pub fn lazy_gets_stand(alloc: Global, k: u32, p: &Program) -> Result<bool, NoMemory>
    ensures { IfOk result (λ answer. IsTrue answer ↔ LazyGetsStand k p.now) }
{
    if k >= 4 {
        return Ok(true);
    }
    each_class(alloc, &GetsOwn, p)
}

#[derive(Clone, Copy)]
struct GetsOwn;

impl ClassRule for GetsOwn {
    ghost use Rattle.std.specs.Prelude.{IsTrue};
    ghost use Rattle.ty_good.specs.LazyGets.{class_gets_own};

    ghost keeps = { λ rule number class. IsTrue (class_gets_own number class) };

    fn keeps(&self, _alloc: Global, number: u32, class: &Class) -> Result<bool, NoMemory> {
        Ok(class_gets_own(number, class))
    }
}

fn class_gets_own(number: u32, class: &Class) -> bool
    ensures { result ≡ class_gets_own number class.now }
{
    let cells = class.cells.as_slice();
    constructor_gets_none(class)
        && cells_get_none(cells)
        && methods_get_own(number, cells, class.methods.as_slice())
}

// Whether a constructor reads none.
fn constructor_gets_none(class: &Class) -> bool
    ensures { result ≡ nat_eq (lazy_gets (ConstructorTree class.now)) 0 }
{
    lazy_gets(Node::Constructor(class)) == 0
}

// Whether no initialiser reads a lazy member.
fn cells_get_none(cells: &[Cell]) -> bool
    ensures { result ≡ list_all (λ c. gets_none c.init) cells.now }
{
    cells.iter().all(|cell| gets_none(&cell.init))
}

fn gets_none(e: &Expr) -> bool
    ensures { result ≡ gets_none e.now }
{
    lazy_gets(Node::Expr(e)) == 0
}

// Whether each method reads none, or is the one that reads the member of its name.
fn methods_get_own(number: u32, cells: &[Cell], methods: &[Method]) -> bool
    ensures { result ≡ list_all (method_gets_own number cells.now) methods.now }
{
    methods.iter().all(|m| method_gets_own(number, cells, m))
}

// Whether a method without parameters does nothing but read the lazy member of its name, or a method reads none.
fn method_gets_own(number: u32, cells: &[Cell], m: &Method) -> bool
    ensures { result ≡ method_gets_own number cells.now m.now }
{
    match &m.body {
        Some(body) => {
            (m.params.is_empty() && gets_own(number, cells, &m.name, body)) || gets_none(body)
        }
        None => true,
    }
}

/// Whether a body does nothing but read the lazy member of a name, in the class with a number and these cells.
pub(crate) fn gets_own(number: u32, cells: &[Cell], name: &Name, body: &Expr) -> bool
    ensures { result ≡ level_gets_own number cells.now name.now (out-Expr body.now) }
{
    match body {
        Expr::LazyGet { of, class, cell } => {
            matches!(*of.get(), Expr::This) && *class == number && is_cell_named(cells, name, *cell)
        }
        _ => false,
    }
}

fn is_cell_named(cells: &[Cell], name: &Name, cell: u32) -> bool
    ensures { result ≡ is_cell_named cells.now name.now cell }
{
    match at(cells, cell as usize) {
        Some(cell) => cell.name == *name,
        None => false,
    }
}

// How many nodes of a tree read a lazy member, or 4,294,967,295 where there are more.
fn lazy_gets(root: Node<'_>) -> u32
    ensures { result ≡ min (lazy_gets (tree_of root.entry)) 4294967295 }
{
    total(&LazyGets, root)
}

// A node that reads a lazy member counts 1.
#[derive(Clone, Copy)]
struct LazyGets;

impl Measure for LazyGets {
    ghost use Rattle.ty_good.specs.LazyGets.{gets_lazy};

    ghost of = { λ measure. gets_lazy };

    fn of(&self, node: Node<'_>) -> u32 {
        match node {
            Node::Expr(Expr::LazyGet { .. }) => 1,
            _ => 0,
        }
    }
}
