//! Programs.

use crate::class::Class;
use sqlite_items::Items;

/// The classes of a program, named by their numbers from 0, and the number of the object whose `main` is run. The
/// classes of the prelude come first.
#[derive(Debug, Drop)]
pub struct Program {
    pub classes: Items<Class>,
    pub main: u32,
}
