//! What clauses know of the table of opcodes.

use crate::op_rows;
use crate::shape::Shape;

/// An opcode and what follows it.
#[derive(Clone, Copy)]
pub struct OpForm {
    pub op: u8,
    pub shape: Shape,
}

macro_rules! forms {
    ([$($_argument:tt),*] $($op:literal $name:literal $shape:ident,)*) => {
        [$(OpForm { op: $op, shape: Shape::$shape }),*]
    };
}

/// The rows without their names, in rising order.
pub const FORMS: [OpForm; 118] = op_rows!(forms,);
