//! The table of opcodes.

use crate::op_rows;
use crate::shape::Shape;

/// The opcodes, in rising order.
#[derive(Clone, Copy)]
pub struct OpTable<const N: usize> {
    pub rows: [OpRow; N],
}

/// One opcode, with its name (JVMS 6.5) and what follows it.
#[derive(Clone, Copy)]
pub struct OpRow {
    pub op: u8,
    pub name: &'static str,
    pub shape: Shape,
}

macro_rules! rows {
    ([$($_argument:tt),*] $($op:literal $name:literal $shape:ident,)*) => {
        [$(OpRow { op: $op, name: $name, shape: Shape::$shape }),*]
    };
}

/// The rows of the table.
pub(crate) const ROWS: [OpRow; 118] = op_rows!(rows,);

/// The opcodes that are read, written and run (JVMS 6.5).
pub const OPS: OpTable<118> = OpTable { rows: ROWS };
