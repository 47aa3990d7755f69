//! What the table has for an opcode.

ghost use Rattle.std.specs.Prelude.{◌≡◌, MatchOption, None, Some};
ghost use Rattle.cf_form.specs.Opcodes.{shape_among, shape_of};

use crate::op_form::{FORMS, OpForm};
use crate::op_rows;
use crate::op_table::OpRow;
use crate::shape::Shape;

macro_rules! shapes {
    ([$op:tt] $($code:literal $name:literal $shape:ident,)*) => {
        match $op {
            $($code => Some(Shape::$shape),)*
            _ => searched(&FORMS, $op),
        }
    };
}

macro_rules! names {
    ([$op:tt] $($code:literal $name:literal $shape:ident,)*) => {
        match $op {
            $($code => $name,)*
            _ => "",
        }
    };
}

/// What follows this opcode; None where no row has it.
#[tactic(auto, unfolding(crate::specs::Opcodes::shape_of))]
#[inline(always)]
pub fn shape_of(op: u8) -> Option<Shape>
    ensures { result ≡ shape_of op }
{
    op_rows!(shapes, op)
}

/// The row of this opcode; None where no row has it.
pub fn row(op: u8) -> Option<OpRow>
    ensures { MatchOption result (shape_of op ≡ None) (λ row. (row.op ≡ op) × (shape_of op ≡ Some row.shape)) }
{
    match shape_of(op) {
        Some(shape) => Some(OpRow {
            op,
            name: name(op),
            shape,
        }),
        None => None,
    }
}

/// The name of this opcode, or nothing where no row has it.
fn name(op: u8) -> &'static str {
    op_rows!(names, op)
}

/// The shape that these rows have for this opcode, by going through them.
#[cold]
#[inline(never)]
fn searched(rows: &[OpForm], op: u8) -> Option<Shape>
    ensures { result ≡ shape_among rows.now op }
{
    for row in rows {
        if row.op == op {
            return Some(row.shape);
        }
    }
    None
}
