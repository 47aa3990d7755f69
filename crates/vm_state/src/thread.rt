//! Threads.

use crate::frame::Frame;
use crate::stack::Stack;
use crate::value::Value;

/// A thread (JVMS 2.5). Contracts see its frames from the innermost on. `thrown` is the exception for which a handler is
/// looked for.
#[derive(Drop)]
pub struct Thread {
    pub number: u32,
    pub frames: Stack<Frame>,
    pub thrown: Option<Value>,
}
