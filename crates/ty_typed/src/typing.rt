//! Whether a class is typed where its locals have some types.

ghost use Rattle.std.specs.Prelude.{◌≡◌, ◌↔◌, IsTrue};
ghost use Rattle.ty_typed.specs.Bodies.{AllBoth, CellTyped, MethodTyped, ClassTyped, this_of};

use crate::bodies::{constructor_typed, gives};
use crate::class_locals::ClassLocals;
use crate::scope::Scope;
use sqlite_items::Items;
use ty_prog::{Cell, Class, Method, Program, Ty};

const NONE: [Ty; 0] = [];

// Whether a class is typed where its locals have these types.
pub(crate) fn class_typed(p: &Program, number: u32, class: &Class, locals: &ClassLocals) -> bool
    ensures { IsTrue result ↔ ClassTyped p.now number class.now locals.now }
{
    let scope = Scope {
        program: p,
        this: Some(number),
        locals: locals.constructor.as_slice(),
    };
    if !constructor_typed(scope, class) {
        return false;
    }
    if !cells_typed(p, number, class.cells.as_slice(), locals.cells.as_slice()) {
        return false;
    }
    methods_typed(
        p,
        number,
        class.methods.as_slice(),
        locals.methods.as_slice(),
    )
}

// Whether its cells are.
fn cells_typed(p: &Program, class: u32, cells: &[Cell], locals: &[Items<Ty>]) -> bool
    ensures { IsTrue result ↔ AllBoth (CellTyped p.now class) cells.now locals.now }
{
    let mut cells = cells;
    let mut rest = locals;
    while let Some((cell, more)) = cells.split_first() {
        match rest.split_first() {
            Some((first, behind)) => {
                if !cell_typed(p, class, cell, first.as_slice()) {
                    return false;
                }
                cells = more;
                rest = behind;
            }
            None => return false,
        }
    }
    rest.is_empty()
}

// Whether a cell is.
fn cell_typed(p: &Program, class: u32, cell: &Cell, locals: &[Ty]) -> bool
    ensures { IsTrue result ↔ CellTyped p.now class cell.now locals.now }
{
    let scope = Scope {
        program: p,
        this: Some(class),
        locals,
    };
    gives(scope, &NONE, cell.locals, &cell.init, cell.ty)
}

// Whether its methods are.
fn methods_typed(p: &Program, class: u32, methods: &[Method], locals: &[Items<Ty>]) -> bool
    ensures { IsTrue result ↔ AllBoth (MethodTyped p.now class) methods.now locals.now }
{
    let mut methods = methods;
    let mut rest = locals;
    while let Some((method, more)) = methods.split_first() {
        match rest.split_first() {
            Some((first, behind)) => {
                if !method_typed(p, class, method, first.as_slice()) {
                    return false;
                }
                methods = more;
                rest = behind;
            }
            None => return false,
        }
    }
    rest.is_empty()
}

// Whether a method is.
fn method_typed(p: &Program, class: u32, method: &Method, locals: &[Ty]) -> bool
    ensures { IsTrue result ↔ MethodTyped p.now class method.now locals.now }
{
    let scope = Scope {
        program: p,
        this: this_of(class, method),
        locals,
    };
    match &method.body {
        Some(body) => gives(
            scope,
            method.params.as_slice(),
            method.locals,
            body,
            method.result,
        ),
        None => true,
    }
}

// The class of `this` in a method; a static method has none.
fn this_of(class: u32, method: &Method) -> Option<u32>
    ensures { result ≡ this_of class method.now }
{
    if method.is_static { None } else { Some(class) }
}
