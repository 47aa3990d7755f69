//! The tables of selected methods.

ghost use Rattle.std.specs.Prelude.{◌≡◌, ◌++◌, ◌&&◌, map, length, IfOk, OnOk};
ghost use Rattle.ty_linear.specs.Linear.{is_in};
ghost use Rattle.cf_link.specs.Classes.{is_interface, line_of};
ghost use Rattle.cf_link.specs.Selection.{chosen_all};
ghost use Rattle.cf_link.specs.Layout.{method_slots, numbers, interfaces_of, face, table};

use crate::classes::{chain_of, is_in, is_interface, line_of, methods_of};
use crate::linked_class::LinkedClass;
use crate::selection::chosen;
use crate::table::{Face, Table};
use sqlite_items::Items;
use std::alloc::{AllocError, Global};

/// The table of each class. A table of 2^32 slots or more is answered as want of memory.
pub fn tables_of(alloc: Global, classes: &[LinkedClass]) -> Result<Items<Table>, AllocError>
    ensures { IfOk result (λ tables. tables ≡ map (table classes.now) (numbers (length classes.now))) }
{
    let mut tables = Items::new(alloc);
    for class in 0..classes.len() {
        if class >= 1 << 32 {
            return Err(AllocError);
        }
        tables.push(table_of(alloc, classes, class as u32)?)?;
    }
    Ok(tables)
}

// The table of a class.
fn table_of(alloc: Global, classes: &[LinkedClass], class: u32) -> Result<Table, AllocError>
    ensures { IfOk result (λ t. t ≡ table classes.now class) }
{
    let chain = chain_of(classes, class);
    let above = if chain.is_empty() { chain } else { &chain[1..] };
    let base = method_slots(alloc, classes, class, above)?.len();
    if base >= 1 << 32 {
        return Err(AllocError);
    }
    Ok(Table {
        base: base as u32,
        slots: method_slots(alloc, classes, class, chain)?,
        faces: faces_of(alloc, classes, class)?,
    })
}

// What a class selects for the methods of the classes of a chain, the uppermost class first.
fn method_slots(
    alloc: Global,
    classes: &[LinkedClass],
    class: u32,
    chain: &[u32],
) -> Result<Items<Option<(u32, u32)>>, AllocError>
    ensures { IfOk result (λ slots. slots ≡ method_slots classes.now class chain.now) }
{
    let mut slots = Items::new(alloc);
    let mut rest = chain;
    while let Some((of, more)) = rest.split_last() {
        put_chosen(classes, class, *of, &mut slots)?;
        rest = more;
    }
    Ok(slots)
}

// What a class selects for each method of a class or interface.
fn put_chosen(
    classes: &[LinkedClass],
    class: u32,
    of: u32,
    slots: &mut Items<Option<(u32, u32)>>,
) -> Result<(), AllocError>
    ensures { OnOk result (slots.new ≡ slots.old ++ chosen_all classes.now class of) }
{
    for method in methods_of(classes, of) {
        slots.push(chosen(classes, class, method))?;
    }
    Ok(())
}

// What a class selects for the methods of each interface to which it conforms.
fn faces_of(alloc: Global, classes: &[LinkedClass], class: u32) -> Result<Items<Face>, AllocError>
    ensures { IfOk result (λ faces. faces ≡ map (face classes.now class) (interfaces_of classes.now class)) }
{
    let mut faces = Items::new(alloc);
    let interfaces = interfaces_of(alloc, classes, class)?;
    for of in interfaces.as_slice() {
        let mut slots = Items::new(alloc);
        put_chosen(classes, class, *of, &mut slots)?;
        faces.push(Face { of: *of, slots })?;
    }
    Ok(faces)
}

// The interfaces to which a class conforms, in rising order.
fn interfaces_of(
    alloc: Global,
    classes: &[LinkedClass],
    class: u32,
) -> Result<Items<u32>, AllocError>
    ensures { IfOk result (λ interfaces. interfaces ≡ interfaces_of classes.now class) }
{
    let mut interfaces = Items::new(alloc);
    for i in 0..classes.len() {
        if i >= 1 << 32 {
            return Err(AllocError);
        }
        if is_above(classes, class, i as u32) {
            interfaces.push(i as u32)?;
        }
    }
    Ok(interfaces)
}

// Whether the second is an interface to which the first conforms.
fn is_above(classes: &[LinkedClass], class: u32, of: u32) -> bool
    ensures { result ≡ (is_interface classes.now of && is_in (line_of classes.now class) of) }
{
    is_interface(classes, of) && is_in(line_of(classes, class), of)
}
