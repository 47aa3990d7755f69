//! Why bytes are no class file.

use thiserror::Error;

/// What is wrong, and its first byte, counted from 0.
#[derive(Clone, Copy, Debug, PartialEq, Eq, Error)]
#[error("byte {at}: {kind}")]
pub struct FileFault {
    pub at: u32,
    pub kind: FileKind,
}

/// What is wrong with a class file.
#[derive(Clone, Copy, Debug, PartialEq, Eq, Error)]
pub enum FileKind {
    /// The first four bytes aren't the magic.
    #[error("no class file")]
    Magic,
    /// The major version isn't one of 45 to 49 and 52.
    #[error("a version that is neither 45 to 49 nor 52")]
    Version,
    /// The file ends before the number, text, code or attribute that is being read; the offset is its length.
    #[error("the file ends too early")]
    Cut,
    /// Bytes follow the last attribute.
    #[error("bytes behind the last attribute")]
    Rest,
    /// An entry of the pool has an unknown tag.
    #[error("an unknown tag")]
    Tag,
    /// An index names no entry of the kind that is needed, or a Long or Double takes the last entry of the pool.
    #[error("an index of no entry of the kind that is needed")]
    Index,
    /// A text isn't modified UTF-8.
    #[error("a text that is no modified UTF-8")]
    Utf,
    /// A code, or where it stands, is wrong.
    #[error("a wrong code, or one at a wrong place")]
    Code,
    /// A field or method has the name and descriptor of an earlier one.
    #[error("a second member of the same name and descriptor")]
    Double,
    /// No memory was left.
    #[error("no memory was left")]
    Memory,
}
