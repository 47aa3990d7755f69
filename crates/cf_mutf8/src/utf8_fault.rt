//! Why bytes gave no text.

use thiserror::Error;

/// The error of reading bytes as modified UTF-8.
#[derive(Clone, Copy, Debug, PartialEq, Eq, Error)]
pub enum Utf8Fault {
    /// The first wrong unit begins at the byte `at`, counted from 0.
    #[error("no modified UTF-8 at byte {at}")]
    BadUtf { at: u32 },
    /// No memory was left.
    #[error("no memory was left")]
    Memory,
}
