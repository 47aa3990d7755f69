//! The classes above those of class files: linearisations, a class on a cycle, a class of wrong shape (JVMS 4.1, 4.3, 5.3.5).
#![tactic(auto)]

mod descriptors;
mod lines;
mod rows;
mod shapes;

pub use lines::lines_of;
pub use rows::supertypes;
pub use shapes::first_unshaped;
