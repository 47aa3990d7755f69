//! Where the fields of traits are read and stored.

ghost use Rattle.std.specs.Prelude.{◌≡◌, ◌↔◌, ◌&&◌, IsTrue, IfOk};
ghost use Rattle.std.specs.List.{list_all};
ghost use Rattle.ty_prog.specs.declared.expr.Expr.{out-Expr};
ghost use Rattle.ty_good.specs.Traits.{level_is_local};
ghost use Rattle.ty_good.specs.TraitFields.{is_field_named, is_setter_named, of_trait, uses_none, level_accesses, level_defines, defines, method_accesses, class_accesses, TraitFieldsStand};

use crate::NoMemory;
use crate::each::{ClassRule, each_class};
use sqlite_items::at;
use std::alloc::{AllocError, Global};
use ty_complete::longer;
use ty_conform::is_trait;
use ty_prog::{Cell, Class, Expr, Field, Method, Name, Node, Program};
use ty_walk::{Measure, total};

/// Whether, until the lowering of traits, the fields of a trait are read only by the methods of their names, and stored
/// only by their setters and by statements of the trait's constructor; k is from 0 to 4. Errors: want of memory, also for
/// more than 2^32 classes.
pub fn trait_fields_stand(alloc: Global, k: u32, p: &Program) -> Result<bool, NoMemory>
    ensures { IfOk result (λ answer. IsTrue answer ↔ TraitFieldsStand k p.now) }
{
    if k >= 2 {
        return Ok(true);
    }
    each_class(alloc, &Accesses { p }, p)
}

#[derive(Clone, Copy)]
struct Accesses<'a> {
    p: &'a Program,
}

impl ClassRule for Accesses<'_> {
    ghost use Rattle.std.specs.Prelude.{IsTrue};
    ghost use Rattle.ty_good.specs.TraitFields.{class_accesses};

    ghost keeps = { λ rule number class. IsTrue (class_accesses rule.p.now.classes number class) };

    fn keeps(&self, alloc: Global, number: u32, class: &Class) -> Result<bool, NoMemory> {
        Ok(class_accesses(alloc, self.p.classes.as_slice(), number, class)?)
    }
}

fn class_accesses(
    alloc: Global,
    classes: &[Class],
    number: u32,
    class: &Class,
) -> Result<bool, AllocError>
    ensures { IfOk result (λ answer. answer ≡ class_accesses classes.now number class.now) }
{
    if !parts_fit(classes, number, class) {
        return Ok(false);
    }
    let fields = class.fields.as_slice();
    methods_access(alloc, classes, number, fields, class.methods.as_slice())
}

// Whether what isn't in a method uses no field of a trait but where it defines one.
fn parts_fit(classes: &[Class], number: u32, class: &Class) -> bool
    ensures { result ≡ (list_all (uses_none classes.now) class.now.super_args && list_all (defines classes.now number) class.now.body && list_all (λ c. uses_none classes.now c.init) class.now.cells) }
{
    use_none(classes, class.super_args.as_slice())
        && all_define(classes, number, class.body.as_slice())
        && cells_use_none(classes, class.cells.as_slice())
}

// Whether no expression of a list uses a field of a trait.
fn use_none(classes: &[Class], list: &[Expr]) -> bool
    ensures { result ≡ list_all (uses_none classes.now) list.now }
{
    list.iter().all(|e| uses_none(classes, e))
}

// Whether each statement defines a field of this class, or uses no field of a trait.
fn all_define(classes: &[Class], number: u32, list: &[Expr]) -> bool
    ensures { result ≡ list_all (defines classes.now number) list.now }
{
    list.iter().all(|e| defines(classes, number, e))
}

// Whether no initialiser uses a field of a trait.
fn cells_use_none(classes: &[Class], cells: &[Cell]) -> bool
    ensures { result ≡ list_all (λ c. uses_none classes.now c.init) cells.now }
{
    cells.iter().all(|cell| uses_none(classes, &cell.init))
}

// Whether a statement of a constructor stores into a field of `this`, or uses no field of a trait.
fn defines(classes: &[Class], number: u32, e: &Expr) -> bool
    ensures { result ≡ defines classes.now number e.now }
{
    defines_field(classes, number, e) || uses_none(classes, e)
}

// Whether a statement stores into a field of `this` a value that uses no field of a trait.
fn defines_field(classes: &[Class], number: u32, e: &Expr) -> bool
    ensures { result ≡ level_defines classes.now number (out-Expr e.now) }
{
    match e {
        Expr::Put {
            of,
            class,
            value,
            ..
        } => {
            matches!(*of.get(), Expr::This) && *class == number && uses_none(classes, value.get())
        }
        _ => false,
    }
}

// Whether each method uses none, or is the one that reads or stores the field of its name.
fn methods_access(
    alloc: Global,
    classes: &[Class],
    number: u32,
    fields: &[Field],
    methods: &[Method],
) -> Result<bool, AllocError>
    ensures { IfOk result (λ answer. answer ≡ list_all (method_accesses classes.now number fields.now) methods.now) }
{
    for method in methods {
        if !method_accesses(alloc, classes, number, fields, method)? {
            return Ok(false);
        }
    }
    Ok(true)
}

fn method_accesses(
    alloc: Global,
    classes: &[Class],
    number: u32,
    fields: &[Field],
    m: &Method,
) -> Result<bool, AllocError>
    ensures { IfOk result (λ answer. answer ≡ method_accesses classes.now number fields.now m.now) }
{
    match &m.body {
        Some(body) => {
            let accesses = is_access(alloc, number, fields, &m.name, body)?;
            Ok(accesses || uses_none(classes, body))
        }
        None => Ok(true),
    }
}

/// Whether a body is that of the getter or the setter of a name. Errors: want of memory.
pub(crate) fn is_access(
    alloc: Global,
    number: u32,
    fields: &[Field],
    name: &Name,
    body: &Expr,
) -> Result<bool, AllocError>
    ensures { IfOk result (λ answer. answer ≡ level_accesses number fields.now name.now (out-Expr body.now)) }
{
    match body {
        Expr::Get { of, class, field } => Ok(
            matches!(*of.get(), Expr::This)
                && *class == number
                && is_field_named(fields, name, *field),
        ),
        Expr::Put {
            of,
            class,
            field,
            value,
        } => {
            let named = is_setter_named(alloc, fields, name, *field)?;
            Ok(
                matches!(*of.get(), Expr::This)
                    && *class == number
                    && is_first_local(value.get())
                    && named,
            )
        }
        _ => Ok(false),
    }
}

// Whether an expression reads the first local.
fn is_first_local(e: &Expr) -> bool
    ensures { result ≡ level_is_local 0 (out-Expr e.now) }
{
    match e {
        Expr::Local(local) => *local == 0,
        _ => false,
    }
}

fn is_field_named(fields: &[Field], name: &Name, field: u32) -> bool
    ensures { result ≡ is_field_named fields.now name.now field }
{
    match at(fields, field as usize) {
        Some(field) => field.name == *name,
        None => false,
    }
}

fn is_setter_named(
    alloc: Global,
    fields: &[Field],
    name: &Name,
    field: u32,
) -> Result<bool, AllocError>
    ensures { IfOk result (λ answer. answer ≡ is_setter_named fields.now name.now field) }
{
    match at(fields, field as usize) {
        Some(field) => {
            let setter = longer(alloc, &field.name, "_$eq")?;
            Ok(setter == *name)
        }
        None => Ok(false),
    }
}

// Whether no node of an expression reads or stores into a field of a trait.
fn uses_none(classes: &[Class], e: &Expr) -> bool
    ensures { result ≡ uses_none classes.now e.now }
{
    total(&Uses { classes }, Node::Expr(e)) == 0
}

// A node that reads or stores into a field of a trait counts 1.
#[derive(Clone, Copy)]
struct Uses<'a> {
    classes: &'a [Class],
}

impl Measure for Uses<'_> {
    ghost use Rattle.ty_good.specs.TraitFields.{uses};

    ghost of = { λ measure. uses measure.classes.now };

    fn of(&self, node: Node<'_>) -> u32 {
        match node {
            Node::Expr(Expr::Get { class, .. }) | Node::Expr(Expr::Put { class, .. }) => {
                of_trait(self.classes, *class)
            }
            _ => 0,
        }
    }
}

// 1 for a class that is a trait, else 0.
fn of_trait(classes: &[Class], class: u32) -> u32
    ensures { result ≡ of_trait classes.now class }
{
    if is_trait(classes, class) { 1 } else { 0 }
}
