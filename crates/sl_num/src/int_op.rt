//! The operators of `Int` whose result is an `Int` and that never throw.

/// A binary operator of `Int`. `Shl` is `<<`, `Shr` is `>>` and `Ushr` is `>>>`.
#[derive(Clone, Copy, Debug, PartialEq, Eq)]
pub enum IntOp {
    Add,
    Sub,
    Mul,
    And,
    Or,
    Xor,
    Shl,
    Shr,
    Ushr,
}
