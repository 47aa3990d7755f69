//! What opcodes do, by families.

use cf_link::ValueKind;
use sl_num::IntOp;

/// A comparison with 0, or of two Ints.
#[derive(Clone, Copy, Debug)]
pub enum Comparison {
    Equal,
    NotEqual,
    Less,
    AtLeast,
    Greater,
    AtMost,
}

/// The two results of a division.
#[derive(Clone, Copy, Debug)]
pub enum Division {
    Quotient,
    Remainder,
}

/// How a method is called (JVMS 6.5: invokevirtual, invokespecial, invokeinterface).
#[derive(Clone, Copy, Debug)]
pub enum Invocation {
    Virtual,
    Special,
    Interface,
}

/// An instruction that always touches what threads share.
#[derive(Clone, Copy, Debug)]
pub enum HeapAction {
    GetStatic,
    PutStatic,
    GetField,
    PutField,
    InvokeStatic,
    New,
}

/// A family of opcodes, with what tells its members apart (JVMS 6.5).
#[derive(Clone, Copy, Debug)]
pub enum Action {
    Nop,
    PushNull,
    PushInt(i32),
    PushLong(i64),
    /// Pushes the instruction's own operand.
    PushOperand,
    /// Pushes a constant of the pool.
    PushConstant,
    /// Of the local that the instruction names.
    Load(ValueKind),
    LoadAt(ValueKind, u32),
    Store(ValueKind),
    StoreAt(ValueKind, u32),
    /// Takes so many units of depth off (JVMS 2.6.2).
    Pop(u32),
    /// Copies the top units, the first number of them, below the next ones, the second number of them.
    Dup(u32, u32),
    Swap,
    Ints(IntOp),
    Longs(IntOp),
    /// Shifts a Long by an Int.
    LongShift(IntOp),
    IntDivide(Division),
    LongDivide(Division),
    IntNegate,
    LongNegate,
    /// Adds to a local.
    Increment,
    IntToLong,
    LongToInt,
    CompareLongs,
    IfZero(Comparison),
    IfInts(Comparison),
    /// Goes on at the target where two references are the same, or where they aren't.
    IfSame(bool),
    /// Goes on at the target where a reference is null, or where it isn't.
    IfNull(bool),
    Goto,
    /// Ends the method with a value of this kind.
    Give(ValueKind),
    Leave,
    AtHeap(HeapAction),
    Invoke(Invocation),
    Throw,
    CheckCast,
    InstanceOf,
    /// Stands before a wide instruction, and isn't one.
    Wide,
}
