//! The types of the locals of a class.

use sqlite_items::Items;
use ty_prog::Ty;

/// The types of the locals of a class: those of its constructor, of the initialiser of each cell, and of each method,
/// parameters included.
#[derive(Debug, Drop)]
pub struct ClassLocals {
    pub constructor: Items<Ty>,
    pub cells: Items<Items<Ty>>,
    pub methods: Items<Items<Ty>>,
}
