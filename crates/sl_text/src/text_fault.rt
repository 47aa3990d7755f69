//! Why bytes gave no text.

use thiserror::Error;

/// The fault of bytes that were to be read as a text.
#[derive(Clone, Copy, Debug, PartialEq, Eq, Error)]
pub enum TextFault {
    /// The bytes are no UTF-8: the first ill-formed sequence begins at the byte `at`, counted from 0.
    #[error("no UTF-8 at byte {at}")]
    NotUtf8 { at: u32 },
    /// No memory was left.
    #[error("no memory was left")]
    Memory,
}
