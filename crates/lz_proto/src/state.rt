//! What a cell holds.

/// The content of a lazy member's field.
#[derive(Clone, Copy, Debug, PartialEq, Eq)]
pub enum State {
    /// null
    Empty,
    /// the initialiser is being run by this thread
    Evaluating(u32),
    /// the same, and others may await this latch
    Waiting(u32),
    /// the value
    Done(u64),
}
