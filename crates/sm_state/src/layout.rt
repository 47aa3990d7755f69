//! Objects as they are made, and the places of their fields and cells.

ghost use Rattle.std.specs.Prelude.{◌≡◌, ◌+◌, ◌++◌, map, IfOk, OnOk, option_map};
ghost use Rattle.sm_state.specs.Layout.{linear_of, fields_of, cells_of, offset, field_number, cell_number, default_of, initial, made_fields, made_cells, made};
ghost use Rattle.sm_state.specs.declared.once.Once.TheVariants as once;

use crate::heap::Object;
use crate::once::Once;
use crate::sequence::Sequence;
use crate::value::Value;
use sl_base::NoMemory;
use std::alloc::Global;
use ty_prog::{Cell, Class, Field, Ty};

/// The linearisation of a class.
pub fn linear_of(classes: &[Class], class: u32) -> &[u32]
    ensures { result.now ≡ linear_of classes.now class }
{
    match classes.get(class as usize) {
        Some(c) => c.linear.as_slice(),
        None => &[],
    }
}

// The fields of a class.
fn fields_of(classes: &[Class], class: u32) -> &[Field]
    ensures { result.now ≡ fields_of classes.now class }
{
    match classes.get(class as usize) {
        Some(c) => c.fields.as_slice(),
        None => &[],
    }
}

// The cells of a class.
fn cells_of(classes: &[Class], class: u32) -> &[Cell]
    ensures { result.now ≡ cells_of classes.now class }
{
    match classes.get(class as usize) {
        Some(c) => c.cells.as_slice(),
        None => &[],
    }
}

// The number of an item behind this many more, where there is room for it.
fn behind(count: usize, number: Option<usize>) -> Result<Option<usize>, NoMemory>
    ensures { IfOk result (λ sum. sum ≡ option_map (λ n. count + n) number) }
{
    match number {
        None => Ok(None),
        Some(n) => match count.checked_add(n) {
            Some(sum) => Ok(Some(sum)),
            None => Err(NoMemory),
        },
    }
}

// The number of the first field of a class among those of an object, whose class has this linearisation.
fn field_offset(classes: &[Class], linear: &[u32], class: u32) -> Result<Option<usize>, NoMemory>
    ensures { IfOk result (λ number. number ≡ offset (fields_of classes.now) linear.now class) }
{
    match linear.split_first() {
        None => Ok(None),
        Some((c, rest)) => {
            if *c == class {
                return Ok(Some(0));
            }
            behind(
                fields_of(classes, *c).len(),
                field_offset(classes, rest, class)?,
            )
        }
    }
}

// The number of the first cell of a class among those of an object, whose class has this linearisation.
fn cell_offset(classes: &[Class], linear: &[u32], class: u32) -> Result<Option<usize>, NoMemory>
    ensures { IfOk result (λ number. number ≡ offset (cells_of classes.now) linear.now class) }
{
    match linear.split_first() {
        None => Ok(None),
        Some((c, rest)) => {
            if *c == class {
                return Ok(Some(0));
            }
            behind(
                cells_of(classes, *c).len(),
                cell_offset(classes, rest, class)?,
            )
        }
    }
}

// The number of an item behind the first one of its class, where there is room for it.
fn item(first: Option<usize>, number: u32) -> Result<Option<usize>, NoMemory>
    ensures { IfOk result (λ sum. sum ≡ option_map (λ n. n + number) first) }
{
    match first {
        None => Ok(None),
        Some(n) => match n.checked_add(number as usize) {
            Some(sum) => Ok(Some(sum)),
            None => Err(NoMemory),
        },
    }
}

/// The number of a field among those of an object of the class `of`. Errors: want of memory, for a number past `usize`.
pub fn field_number(
    classes: &[Class],
    of: u32,
    class: u32,
    field: u32,
) -> Result<Option<usize>, NoMemory>
    ensures { IfOk result (λ number. number ≡ field_number classes.now of class field) }
{
    item(field_offset(classes, linear_of(classes, of), class)?, field)
}

/// The number of a cell among those of an object of the class `of`. Errors: want of memory, for a number past `usize`.
pub fn cell_number(
    classes: &[Class],
    of: u32,
    class: u32,
    cell: u32,
) -> Result<Option<usize>, NoMemory>
    ensures { IfOk result (λ number. number ≡ cell_number classes.now of class cell) }
{
    item(cell_offset(classes, linear_of(classes, of), class)?, cell)
}

/// What a field of this type holds before anything is stored.
pub fn default_of(ty: Ty) -> Value
    ensures { result ≡ default_of ty }
{
    match ty {
        Ty::Int => Value::Int(0),
        Ty::Long => Value::Long(0),
        Ty::Boolean => Value::Bool(false),
        Ty::Unit => Value::Unit,
        _ => Value::Null,
    }
}

// What a field of this type begins with.
fn initial(alloc: Global, given: &Option<Value>, ty: Ty) -> Result<Value, NoMemory>
    ensures { IfOk result (λ made. made ≡ initial given.now ty) }
{
    match given {
        Some(v) => v.copy(alloc),
        None => Ok(default_of(ty)),
    }
}

// The fields of a class, at the end of others.
fn add_fields(
    alloc: Global,
    given: &Option<Value>,
    fields: &[Field],
    made: &mut Sequence<Value>,
) -> Result<(), NoMemory>
    ensures { OnOk result (made.new ≡ made.old ++ map (λ f. initial given.now f.ty) fields.now) }
{
    for field in fields {
        made.push(initial(alloc, given, field.ty)?)?;
    }
    Ok(())
}

// Adds the cells of a class, all Empty.
fn add_cells(cells: &[Cell], made: &mut Sequence<Once>) -> Result<(), NoMemory>
    ensures { OnOk result (made.new ≡ made.old ++ map (λ cell. once.Empty) cells.now) }
{
    for cell in cells {
        made.push(Once::Empty)?;
    }
    Ok(())
}

// Adds the fields of the classes of a linearisation.
fn add_all_fields(
    alloc: Global,
    classes: &[Class],
    given: &Option<Value>,
    linear: &[u32],
    made: &mut Sequence<Value>,
) -> Result<(), NoMemory>
    ensures { OnOk result (made.new ≡ made.old ++ made_fields classes.now given.now linear.now) }
{
    match linear.split_first() {
        None => Ok(()),
        Some((c, rest)) => {
            add_fields(alloc, given, fields_of(classes, *c), made)?;
            add_all_fields(alloc, classes, given, rest, made)
        }
    }
}

// Adds the cells of the classes of a linearisation.
fn add_all_cells(
    classes: &[Class],
    linear: &[u32],
    made: &mut Sequence<Once>,
) -> Result<(), NoMemory>
    ensures { OnOk result (made.new ≡ made.old ++ made_cells classes.now linear.now) }
{
    match linear.split_first() {
        None => Ok(()),
        Some((c, rest)) => {
            add_cells(cells_of(classes, *c), made)?;
            add_all_cells(classes, rest, made)
        }
    }
}

/// An object of this class, with all fields as given, or with their defaults (JVMS 2.3, 2.4), and its cells empty. Errors:
/// want of memory.
pub fn made(
    alloc: Global,
    classes: &[Class],
    class: u32,
    given: &Option<Value>,
) -> Result<Object, NoMemory>
    ensures { IfOk result (λ object. object ≡ made classes.now class given.now) }
{
    let linear = linear_of(classes, class);
    let mut fields = Sequence::new(alloc);
    add_all_fields(alloc, classes, given, linear, &mut fields)?;
    let mut cells = Sequence::new(alloc);
    add_all_cells(classes, linear, &mut cells)?;
    Ok(Object {
        class,
        fields,
        cells,
    })
}
