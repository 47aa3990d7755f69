//! The types of locals.

use sqlite_items::Items;
use std::alloc::{AllocError, Global};
use ty_prog::{Class, Ty};

/// The types of the locals of a class: those of its constructor, of the initialiser of each cell, and of each method,
/// parameters included.
#[derive(Drop)]
pub struct LocalTypes {
    pub constructor: Items<Ty>,
    pub cells: Items<Items<Ty>>,
    pub methods: Items<Items<Ty>>,
    // Whether the linearisation of the class was given.
    pub(crate) has_linear: bool,
}

impl LocalTypes {
    pub(crate) fn new(alloc: Global) -> LocalTypes {
        LocalTypes {
            constructor: Items::new(alloc),
            cells: Items::new(alloc),
            methods: Items::new(alloc),
            has_linear: false,
        }
    }
}

/// The types of the locals of classes without cells that have no others than the parameters.
pub(crate) fn parameter_types(
    alloc: Global,
    classes: &[Class],
) -> Result<Items<LocalTypes>, AllocError> {
    let mut list = Items::new(alloc);
    for class in classes {
        let mut types = LocalTypes::new(alloc);
        add_params(&mut types, class)?;
        add_methods(alloc, &mut types, class)?;
        list.push(types)?;
    }
    Ok(list)
}

fn add_params(types: &mut LocalTypes, class: &Class) -> Result<(), AllocError> {
    for field in class.params.as_slice() {
        if let Some(field) = class.fields.get(*field as usize) {
            types.constructor.push(field.ty)?;
        }
    }
    Ok(())
}

fn add_methods(alloc: Global, types: &mut LocalTypes, class: &Class) -> Result<(), AllocError> {
    for method in class.methods.as_slice() {
        let params = Items::from_slice(alloc, method.params.as_slice())?;
        types.methods.push(params)?;
    }
    Ok(())
}
