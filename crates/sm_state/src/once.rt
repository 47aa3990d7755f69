//! Cells.

use crate::value::Value;

/// What a lazy member has in one object (SIP-20): nothing yet, a thread that runs the initialiser, or its value.
#[derive(Debug, Drop)]
pub enum Once {
    Empty,
    Running(u32),
    Done(Value),
}
