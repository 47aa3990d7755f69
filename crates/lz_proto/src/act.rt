//! What moves an accessor.

/// An act of an accessor.
#[derive(Clone, Copy, Debug, PartialEq, Eq)]
pub enum Act {
    /// it is entered, to read this cell
    Read(u32),
    /// its initialiser returns this value
    Return(u64),
    /// its initialiser throws
    Throw,
    /// it makes its next step
    Go,
}
