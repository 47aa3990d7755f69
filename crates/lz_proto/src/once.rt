//! What a cell is to its readers.

/// A cell that is written once.
#[derive(Clone, Copy, Debug, PartialEq, Eq)]
pub enum Once {
    /// no initialiser runs
    Empty,
    /// this accessor runs the initialiser
    Running(u32),
    /// the value
    Done(u64),
}
