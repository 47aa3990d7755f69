//! The primitive operators.

/// An operator. The types of its operands tell whether it works on Int, Long or Boolean (SLS 12.2).
#[derive(Clone, Copy, Debug, PartialEq, Eq)]
pub enum PrimOp {
    Add,
    Sub,
    Mul,
    Div,
    Rem,
    And,
    Or,
    Xor,
    Shl,
    Shr,
    Ushr,
    Less,
    AtMost,
    Greater,
    AtLeast,
    Not,
    /// Whether two references are the same (`eq`).
    Same,
    /// Two texts joined.
    Concat,
    /// The UTF-16 units of a text.
    Length,
    IsEmpty,
    /// A call of `equals`.
    Equals,
    /// A call of `toString`.
    ToString,
    /// The simple name of the class of a value.
    ClassName,
    /// The control value that names the thread which makes the move, for a lazy member whose initialiser it runs; low.
    Evaluating,
    /// The control value that stands for null in a lazy member that is done; low.
    NullValue,
}
