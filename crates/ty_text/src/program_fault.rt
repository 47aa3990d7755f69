//! Why a text gave no program.

use std::alloc::{AllocError, AllocFailed};
use thiserror::Error;
use ty_prog::NoMemory;

/// What was due where a text says nothing.
#[derive(Clone, Copy, Debug, PartialEq, Eq, Error)]
pub enum Wanted {
    #[error("a known head of a form")]
    Head,
    #[error("a word")]
    Word,
    #[error("a number")]
    Number,
    #[error("a known name")]
    Name,
    #[error("a part")]
    Part,
    #[error("no further part")]
    Nothing,
    #[error("an end")]
    End,
    #[error("no more open forms or characters")]
    Less,
}

/// Why a text gave no program: what was due in which line, counted from 1, or want of memory.
#[derive(Clone, Copy, Debug, PartialEq, Eq, Error)]
pub enum ProgramFault {
    #[error("line {line}: expected {wanted}")]
    Expected { line: u32, wanted: Wanted },
    #[error("no memory was left")]
    Memory,
}

impl From<AllocError> for ProgramFault {
    fn from(_error: AllocError) -> ProgramFault {
        ProgramFault::Memory
    }
}

impl<T: Drop> From<AllocFailed<T>> for ProgramFault {
    fn from(_error: AllocFailed<T>) -> ProgramFault {
        ProgramFault::Memory
    }
}

impl From<NoMemory> for ProgramFault {
    fn from(_error: NoMemory) -> ProgramFault {
        ProgramFault::Memory
    }
}
