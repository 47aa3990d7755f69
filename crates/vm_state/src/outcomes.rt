//! What instructions and steps come to.

use crate::target::Target;
use crate::value::Value;

/// Why a step can't be made.
#[derive(Clone, Copy, Debug, PartialEq, Eq)]
pub enum StuckKind {
    /// Too few operands, or no room for one more.
    Stack,
    /// No such local.
    LocalOut,
    /// An operand of another kind than is wanted, or an entry of the constant pool.
    WrongKind,
    /// No instruction of this number.
    PcOut,
    /// No method is selected, or it has no code and isn't built in.
    NoMethod,
}

/// What an instruction does beside changing its frame.
#[derive(Clone, Copy, Debug)]
pub enum Effect {
    /// The next instruction of the frame follows.
    Done,
    /// It touches what threads share.
    AtHeap,
    Stuck(StuckKind),
    /// A method is called, with so many operands as arguments.
    Call { target: Target, count: usize },
    /// The method ends, with a value or without.
    Return(Option<Value>),
    Throw(Value),
}

/// What came of a local step.
#[derive(Clone, Copy, Debug)]
pub enum LocalStep {
    Stepped,
    /// The next step touches what threads share.
    AtHeap,
    /// The thread has no frame left.
    Ended,
    Stuck(StuckKind),
    Memory,
}

/// What an instruction does that touches what threads share, beside changing its frame and the heap.
#[derive(Clone, Copy, Debug)]
pub enum HeapEffect {
    /// The next instruction of the frame follows.
    Done,
    /// It awaits a closed latch, or a class that another thread initialises.
    Waits,
    Stuck(StuckKind),
    /// An exception of this class is made and thrown.
    Fail(u32),
    /// A method is called, with so many operands as arguments.
    Call { target: Target, count: usize },
    /// The initialiser of a class is entered; the instruction is made after it.
    Initialise(Target),
    Memory,
}

/// What came of a heap step.
#[derive(Clone, Copy, Debug)]
pub enum HeapMove {
    Moved,
    Waits,
    Stuck(StuckKind),
    Memory,
}

/// What a thread can do next.
#[derive(Clone, Copy, Debug)]
pub enum Ability {
    Moves,
    Waits,
    Ended,
    Stuck(StuckKind),
}

/// How far a thread finds a class initialised that it needs (JVMS 5.5).
#[derive(Clone, Copy, Debug)]
pub enum Readiness {
    /// It may be used.
    Usable,
    /// It has no initialiser, and may be used from now on.
    Fresh,
    /// Another thread initialises it.
    Busy,
    /// Its initialiser threw.
    Failed,
    /// It can't be initialised.
    Lacks(StuckKind),
    /// Its initialiser is entered.
    Begins(Target),
}
