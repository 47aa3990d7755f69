//! Why bytes are no code.

ghost use Rattle.std.specs.Prelude.{◌≡◌};

use thiserror::Error;

/// What is wrong with the instruction whose first byte is `at`, counted from 0.
#[derive(Clone, Copy, Debug, PartialEq, Eq, Error)]
#[error("byte {at} of the code: {kind}")]
pub struct CodeFault {
    pub at: u32,
    pub kind: CodeKind,
}

/// What may be wrong with bytes as a method's code (JVMS 4.7.3, 4.9.1).
#[derive(Clone, Copy, Debug, PartialEq, Eq, Error)]
pub enum CodeKind {
    /// No row has the opcode, or `wide` stands before one that it can't stand before.
    #[error("no such opcode")]
    Opcode,
    /// The bytes end within the instruction, or there are none.
    #[error("the code ends within an instruction")]
    Cut,
    /// It jumps to a byte where no instruction begins.
    #[error("a jump to no instruction")]
    Jump,
    /// The last byte of `invokeinterface` isn't 0.
    #[error("the last byte of invokeinterface isn't 0")]
    Shape,
    /// No memory was left. `at` is 0.
    #[error("no memory was left")]
    Memory,
}

impl CodeFault {
    /// Want of memory.
    pub fn memory() -> CodeFault
        ensures { result ≡ record { at = 0; kind = CodeKind.Memory } }
    {
        CodeFault {
            at: 0,
            kind: CodeKind::Memory,
        }
    }
}
