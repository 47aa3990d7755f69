//! Copies of programs, which equal what they copy.

ghost use Rattle.std.specs.Prelude.{◌≡◌, IfOk};

use crate::NoMemory;
use crate::cell::Cell;
use crate::class::Class;
use crate::copy_trees::copy_expr;
use crate::expr::Expr;
use crate::field::Field;
use crate::method::Method;
use crate::program::Program;
use sqlite_items::Items;
use std::alloc::Global;

/// A copy of a program. Errors: want of memory.
pub fn copy(alloc: Global, p: &Program) -> Result<Program, NoMemory>
    ensures { IfOk result (λ made. made ≡ p.now) }
{
    let mut classes = Items::new(alloc);
    for class in p.classes.as_slice() {
        classes.push(copy_class(alloc, class)?)?;
    }
    Ok(Program {
        classes,
        main: p.main,
    })
}

/// A copy of a class. Errors: want of memory.
pub fn copy_class(alloc: Global, class: &Class) -> Result<Class, NoMemory>
    ensures { IfOk result (λ made. made ≡ class.now) }
{
    Ok(Class {
        name: class.name.copy(alloc)?,
        kind: class.kind,
        parents: Items::from_slice(alloc, class.parents.as_slice())?,
        linear: Items::from_slice(alloc, class.linear.as_slice())?,
        params: Items::from_slice(alloc, class.params.as_slice())?,
        mixins: Items::from_slice(alloc, class.mixins.as_slice())?,
        fields: fields(alloc, &class.fields)?,
        cells: cells(alloc, &class.cells)?,
        methods: methods(alloc, &class.methods)?,
        super_args: exprs(alloc, &class.super_args)?,
        body: exprs(alloc, &class.body)?,
        locals: class.locals,
    })
}

fn fields(alloc: Global, fields: &Items<Field>) -> Result<Items<Field>, NoMemory>
    ensures { IfOk result (λ made. made ≡ fields.now) }
{
    let mut made = Items::new(alloc);
    for field in fields.as_slice() {
        made.push(Field {
            name: field.name.copy(alloc)?,
            ty: field.ty,
        })?;
    }
    Ok(made)
}

fn cells(alloc: Global, cells: &Items<Cell>) -> Result<Items<Cell>, NoMemory>
    ensures { IfOk result (λ made. made ≡ cells.now) }
{
    let mut made = Items::new(alloc);
    for cell in cells.as_slice() {
        made.push(Cell {
            name: cell.name.copy(alloc)?,
            ty: cell.ty,
            init: copy_expr(alloc, &cell.init)?,
            locals: cell.locals,
        })?;
    }
    Ok(made)
}

fn methods(alloc: Global, methods: &Items<Method>) -> Result<Items<Method>, NoMemory>
    ensures { IfOk result (λ made. made ≡ methods.now) }
{
    let mut made = Items::new(alloc);
    for method in methods.as_slice() {
        made.push(copy_method(alloc, method)?)?;
    }
    Ok(made)
}

/// A copy of a method. Errors: want of memory.
pub fn copy_method(alloc: Global, method: &Method) -> Result<Method, NoMemory>
    ensures { IfOk result (λ made. made ≡ method.now) }
{
    Ok(Method {
        name: method.name.copy(alloc)?,
        params: Items::from_slice(alloc, method.params.as_slice())?,
        result: method.result,
        body: body(alloc, &method.body)?,
        is_static: method.is_static,
        locals: method.locals,
    })
}

fn body(alloc: Global, body: &Option<Expr>) -> Result<Option<Expr>, NoMemory>
    ensures { IfOk result (λ made. made ≡ body.now) }
{
    match body {
        None => Ok(None),
        Some(e) => Ok(Some(copy_expr(alloc, e)?)),
    }
}

fn exprs(alloc: Global, es: &Items<Expr>) -> Result<Items<Expr>, NoMemory>
    ensures { IfOk result (λ made. made ≡ es.now) }
{
    let mut made = Items::new(alloc);
    for e in es.as_slice() {
        made.push(copy_expr(alloc, e)?)?;
    }
    Ok(made)
}
