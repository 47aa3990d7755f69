//! States of programs.

use crate::heap::Heap;
use crate::sequence::Sequence;
use crate::thread::Thread;

/// A state: what threads share, and the threads from number 1 on.
#[derive(Drop)]
pub struct State<'p> {
    pub heap: Heap,
    pub threads: Sequence<Thread<'p>>,
}
