//! The types of locals as `ty_typed` takes them.

use sqlite_items::Items;
use std::alloc::{AllocError, Global};
use ty_prog::Ty;
use ty_text::LocalTypes;
use ty_typed::ClassLocals;

/// The types of the locals of all classes.
pub(crate) fn class_locals(
    alloc: Global,
    classes: &[LocalTypes],
) -> Result<Items<ClassLocals>, AllocError> {
    let mut all = Items::new(alloc);
    for class in classes {
        all.push(ClassLocals {
            constructor: Items::from_slice(alloc, class.constructor.as_slice())?,
            cells: copied(alloc, class.cells.as_slice())?,
            methods: copied(alloc, class.methods.as_slice())?,
        })?;
    }
    Ok(all)
}

fn copied(alloc: Global, lists: &[Items<Ty>]) -> Result<Items<Items<Ty>>, AllocError> {
    let mut all = Items::new(alloc);
    for types in lists {
        all.push(Items::from_slice(alloc, types.as_slice())?)?;
    }
    Ok(all)
}
