//! What follows an opcode.

/// What follows an opcode (JVMS 6.5).
#[derive(Clone, Copy, Debug, PartialEq, Eq)]
pub enum Shape {
    /// Nothing.
    Plain,
    /// A signed byte.
    Signed1,
    /// Two signed bytes.
    Signed2,
    /// An index of the constant pool, in one byte.
    Pool1,
    /// An index of the constant pool, in two bytes.
    Pool2,
    /// A local, in one byte, or two after `wide`.
    Local,
    /// A local and a signed amount, in one byte each, or two after `wide`.
    Step,
    /// An offset of two signed bytes to the target of a jump.
    Jump2,
    /// An offset of four signed bytes to the target of a jump.
    Jump4,
    /// An index of the constant pool in two bytes, a count in one, and a zero byte.
    Face,
    /// A load, a store or `iinc` with operands of twice the width.
    Wide,
}
