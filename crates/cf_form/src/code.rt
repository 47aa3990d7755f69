//! The code of a method.

use crate::instr::Instr;
use sqlite_items::Items;

/// What a Code attribute has (JVMS 4.7.3), its other attributes left out.
#[derive(Debug, Drop)]
pub struct Code {
    pub max_stack: u16,
    pub max_locals: u16,
    pub instrs: Items<Instr>,
    pub handlers: Items<Handler>,
}

/// A row of the exception table (JVMS 4.7.3): an exception of the class that the pool entry `class` names, or any where
/// `class` is 0, leads from the instructions `from` up to but not including `to` to the instruction `target`. The three
/// are numbers of instructions, of which the number behind the last one means the code's end.
#[derive(Clone, Copy, Debug, PartialEq, Eq)]
pub struct Handler {
    pub from: u32,
    pub to: u32,
    pub target: u32,
    pub class: u16,
}
