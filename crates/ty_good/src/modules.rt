//! Where the constructors of objects set their modules.

ghost use Rattle.std.specs.Prelude.{◌≡◌, ◌↔◌, ◌&&◌, ◌<◌, IsTrue, IfOk, min, nat_eq, if◌then◌else◌};
ghost use Rattle.std.specs.List.{list_all};
ghost use Rattle.ty_prog.specs.declared.expr.Expr.{out-Expr};
ghost use Rattle.ty_prog.specs.Node.{tree_of};
ghost use Rattle.ty_prog.specs.Tree.{ConstructorTree};
ghost use Rattle.ty_good.specs.Modules.{module_sets, cell_sets_none, method_sets_none, level_sets_this, begins_with_module, may_begin, module_fits, ModulesSet};

use crate::NoMemory;
use crate::each::{ClassRule, each_class};
use std::alloc::Global;
use ty_prog::{Cell, Class, Expr, Kind, Method, Node, Program};
use ty_walk::{Measure, total};

/// Whether a module is set only by the first statement of the constructor of its object, with `this`, and from the first
/// lowering on by each of them; k is from 0 to 4. Errors: want of memory, for more than 2^32 classes.
pub fn modules_set(alloc: Global, k: u32, p: &Program) -> Result<bool, NoMemory>
    ensures { IfOk result (λ answer. IsTrue answer ↔ ModulesSet k p.now) }
{
    each_class(alloc, &ModuleFits { k }, p)
}

#[derive(Clone, Copy)]
struct ModuleFits {
    k: u32,
}

impl ClassRule for ModuleFits {
    ghost use Rattle.std.specs.Prelude.{IsTrue};
    ghost use Rattle.ty_good.specs.Modules.{module_fits};

    ghost keeps = { λ rule number class. IsTrue (module_fits rule.k number class) };

    fn keeps(&self, _alloc: Global, number: u32, class: &Class) -> Result<bool, NoMemory> {
        Ok(module_fits(self.k, number, class))
    }
}

fn module_fits(k: u32, number: u32, class: &Class) -> bool
    ensures { result ≡ module_fits k number class.now }
{
    let begins = begins_with_module(number, class.body.as_slice());
    constructor_fits(class, begins)
        && may_begin(k, class.kind, begins)
        && cells_set_none(class.cells.as_slice())
        && methods_set_none(class.methods.as_slice())
}

// Whether a constructor sets a module once where it begins so, and else never.
fn constructor_fits(class: &Class, begins: bool) -> bool
    ensures { result ≡ nat_eq (module_sets (ConstructorTree class.now)) (if begins then 1 else 0) }
{
    let count = module_sets(Node::Constructor(class));
    if begins { count == 1 } else { count == 0 }
}

fn may_begin(k: u32, kind: Kind, begins: bool) -> bool
    ensures { result ≡ may_begin k kind begins }
{
    match kind {
        Kind::Object => begins || k < 1,
        Kind::Class | Kind::Abstract | Kind::Trait => !begins,
    }
}

// Whether the first statement sets the module of the object with a number to `this`.
fn begins_with_module(number: u32, body: &[Expr]) -> bool
    ensures { result ≡ begins_with_module number body.now }
{
    match body.split_first() {
        Some((first, _)) => sets_this(number, first),
        None => false,
    }
}

// Whether an expression sets the module of this class to `this`.
fn sets_this(number: u32, e: &Expr) -> bool
    ensures { result ≡ level_sets_this number (out-Expr e.now) }
{
    match e {
        Expr::SetModule(class, e) => *class == number && matches!(*e.get(), Expr::This),
        _ => false,
    }
}

// Whether no initialiser sets a module.
fn cells_set_none(cells: &[Cell]) -> bool
    ensures { result ≡ list_all cell_sets_none cells.now }
{
    cells.iter().all(cell_sets_none)
}

fn cell_sets_none(cell: &Cell) -> bool
    ensures { result ≡ cell_sets_none cell.now }
{
    module_sets(Node::Expr(&cell.init)) == 0
}

// Whether no method does.
fn methods_set_none(methods: &[Method]) -> bool
    ensures { result ≡ list_all method_sets_none methods.now }
{
    methods.iter().all(method_sets_none)
}

fn method_sets_none(method: &Method) -> bool
    ensures { result ≡ method_sets_none method.now }
{
    match &method.body {
        Some(body) => module_sets(Node::Expr(body)) == 0,
        None => true,
    }
}

// How many nodes of a tree set a module, or 4,294,967,295 where there are more.
fn module_sets(root: Node<'_>) -> u32
    ensures { result ≡ min (module_sets (tree_of root.entry)) 4294967295 }
{
    total(&Sets, root)
}

// A node that sets a module counts 1.
#[derive(Clone, Copy)]
struct Sets;

impl Measure for Sets {
    ghost use Rattle.ty_good.specs.Modules.{sets};

    ghost of = { λ measure. sets };

    fn of(&self, node: Node<'_>) -> u32 {
        match node {
            Node::Expr(Expr::SetModule(..)) => 1,
            _ => 0,
        }
    }
}
