//! Regions of a text.

/// What is open between a token and the one that closes it.
#[derive(Clone, Copy, Debug, PartialEq, Eq)]
pub enum Region {
    Round,
    Square,
    Brace,
    /// From `case` to its `=>`.
    Case,
}
