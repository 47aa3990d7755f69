//! Class files as values (JVMS 4), and the table of opcodes.
#![tactic(auto)]

mod class_file;
mod code;
mod constant;
mod entries;
mod instr;
mod kind;
mod laws;
mod lookup;
mod op_form;
mod op_rows;
mod op_table;
mod shape;
mod version;

pub use class_file::{ClassFile, FieldInfo, MethodInfo};
pub use code::{Code, Handler};
pub use constant::Const;
pub use entries::{entry, names};
pub use instr::Instr;
pub use kind::{Kind, is_of, kind_needed};
pub use laws::{rows, writing};
pub use lookup::{row, shape_of};
pub use op_form::{FORMS, OpForm};
pub use op_table::{OPS, OpRow, OpTable};
pub use shape::Shape;
pub use version::is_version;

#[cfg(test)]
mod tests;
