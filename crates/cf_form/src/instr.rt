//! Instructions.

/// An instruction (JVMS 6.5). `a` and `b` are the operands of the row's shape in their order, 0 where it has none; of a
/// jump, `a` is the number of the instruction that it leads to. `wide` tells that the operands have twice their width.
#[derive(Clone, Copy, Debug, PartialEq, Eq)]
pub struct Instr {
    pub op: u8,
    pub wide: bool,
    pub a: i32,
    pub b: i32,
}
