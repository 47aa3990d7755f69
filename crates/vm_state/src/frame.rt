//! Frames.

use crate::operands::Operands;
use crate::seq::Seq;
use crate::value::Value;

/// One activation of a method (JVMS 2.6): class and method by their numbers, the number of the next instruction, locals,
/// operands. While it has called, it stands at the call.
#[derive(Drop)]
pub struct Frame {
    pub class: u32,
    pub method: u32,
    pub pc: u32,
    pub locals: Seq<Value>,
    pub stack: Operands,
}
