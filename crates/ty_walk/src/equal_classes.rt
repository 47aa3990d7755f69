//! Whether two trees, classes or programs are equal.

ghost use Rattle.std.specs.Prelude.{◌≡◌, ◌↔◌, IsTrue};
ghost use Rattle.ty_prog.specs.Node.{tree_of};

use crate::equal_trees::{same_case, same_expr, same_expr_if, same_exprs, same_pattern};
use ty_prog::{Cell, Class, Field, Method, Node, Program, Ty};

/// Whether two nodes begin the same tree: the same expression, case, pattern or stage, or the constructor of the same
/// class.
pub fn same_tree(one: Node<'_>, other: Node<'_>) -> bool
    ensures { IsTrue result ↔ (tree_of one.entry ≡ tree_of other.entry) }
{
    match (one, other) {
        (Node::Expr(a), Node::Expr(b)) => same_expr(a, b),
        (Node::Case(a), Node::Case(b)) => same_case(a, b),
        (Node::Pattern(a), Node::Pattern(b)) => same_pattern(a, b),
        (Node::Constructor(a), Node::Constructor(b)) => same_class(a, b),
        (Node::Stage(a), Node::Stage(b)) => a == b,
        _ => false,
    }
}

/// Whether two programs are equal.
pub fn same_program(one: &Program, other: &Program) -> bool
    ensures { IsTrue result ↔ (one.now ≡ other.now) }
{
    one.main == other.main && same_classes(one.classes.as_slice(), other.classes.as_slice())
}

/// Whether two lists of classes are equal.
pub fn same_classes(one: &[Class], other: &[Class]) -> bool
    ensures { IsTrue result ↔ (one.now ≡ other.now) }
{
    if one.len() != other.len() {
        return false;
    }
    for (i, class) in one.iter().enumerate() {
        if !same_class(class, &other[i]) {
            return false;
        }
    }
    true
}

/// Whether two classes are equal.
pub fn same_class(one: &Class, other: &Class) -> bool
    ensures { IsTrue result ↔ (one.now ≡ other.now) }
{
    same_heading(one, other) && same_members(one, other) && same_constructor(one, other)
}

fn same_heading(one: &Class, other: &Class) -> bool
    ensures { IsTrue result ↔ ((one.now.name ≡ other.now.name) × (one.now.kind ≡ other.now.kind)
        × (one.now.parents ≡ other.now.parents) × (one.now.linear ≡ other.now.linear)) }
{
    one.name == other.name
        && one.kind == other.kind
        && same_numbers(one.parents.as_slice(), other.parents.as_slice())
        && same_numbers(one.linear.as_slice(), other.linear.as_slice())
}

fn same_members(one: &Class, other: &Class) -> bool
    ensures { IsTrue result ↔ ((one.now.params ≡ other.now.params) × (one.now.mixins ≡ other.now.mixins) × (one.now.fields ≡ other.now.fields)
        × (one.now.cells ≡ other.now.cells) × (one.now.methods ≡ other.now.methods)) }
{
    same_numbers(one.params.as_slice(), other.params.as_slice())
        && same_numbers(one.mixins.as_slice(), other.mixins.as_slice())
        && same_fields(one.fields.as_slice(), other.fields.as_slice())
        && same_cells(one.cells.as_slice(), other.cells.as_slice())
        && same_methods(one.methods.as_slice(), other.methods.as_slice())
}

fn same_constructor(one: &Class, other: &Class) -> bool
    ensures { IsTrue result ↔ ((one.now.super_args ≡ other.now.super_args) × (one.now.body ≡ other.now.body)
        × (one.now.locals ≡ other.now.locals)) }
{
    same_exprs(&one.super_args, &other.super_args)
        && same_exprs(&one.body, &other.body)
        && one.locals == other.locals
}

fn same_numbers(one: &[u32], other: &[u32]) -> bool
    ensures { IsTrue result ↔ (one.now ≡ other.now) }
{
    *one == *other
}

fn same_fields(one: &[Field], other: &[Field]) -> bool
    ensures { IsTrue result ↔ (one.now ≡ other.now) }
{
    if one.len() != other.len() {
        return false;
    }
    for (i, field) in one.iter().enumerate() {
        if !same_field(field, &other[i]) {
            return false;
        }
    }
    true
}

fn same_field(one: &Field, other: &Field) -> bool
    ensures { IsTrue result ↔ (one.now ≡ other.now) }
{
    one.name == other.name && one.ty == other.ty
}

fn same_cells(one: &[Cell], other: &[Cell]) -> bool
    ensures { IsTrue result ↔ (one.now ≡ other.now) }
{
    if one.len() != other.len() {
        return false;
    }
    for (i, cell) in one.iter().enumerate() {
        if !same_cell(cell, &other[i]) {
            return false;
        }
    }
    true
}

fn same_cell(one: &Cell, other: &Cell) -> bool
    ensures { IsTrue result ↔ (one.now ≡ other.now) }
{
    one.name == other.name
        && one.ty == other.ty
        && same_expr(&one.init, &other.init)
        && one.locals == other.locals
}

fn same_methods(one: &[Method], other: &[Method]) -> bool
    ensures { IsTrue result ↔ (one.now ≡ other.now) }
{
    if one.len() != other.len() {
        return false;
    }
    for (i, method) in one.iter().enumerate() {
        if !same_method(method, &other[i]) {
            return false;
        }
    }
    true
}

fn same_method(one: &Method, other: &Method) -> bool
    ensures { IsTrue result ↔ (one.now ≡ other.now) }
{
    same_signature(one, other)
        && same_expr_if(&one.body, &other.body)
        && one.is_static == other.is_static
        && one.locals == other.locals
}

fn same_signature(one: &Method, other: &Method) -> bool
    ensures { IsTrue result ↔ ((one.now.name ≡ other.now.name) × (one.now.params ≡ other.now.params)
        × (one.now.result ≡ other.now.result)) }
{
    one.name == other.name
        && same_types(one.params.as_slice(), other.params.as_slice())
        && one.result == other.result
}

fn same_types(one: &[Ty], other: &[Ty]) -> bool
    ensures { IsTrue result ↔ (one.now ≡ other.now) }
{
    if one.len() != other.len() {
        return false;
    }
    for (i, ty) in one.iter().enumerate() {
        if *ty != other[i] {
            return false;
        }
    }
    true
}
