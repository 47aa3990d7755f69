//! Faults of the parser.

use sl_text::Span;
use thiserror::Error;

/// Why tokens are no file, and at which of them: its number and where it stands. `at` is the number of tokens, and the
/// span is empty, where there are too few.
#[derive(Clone, Copy, Debug, PartialEq, Eq, Error)]
#[error("token {at}: {kind}")]
pub struct ParseFault {
    pub kind: ParseKind,
    pub at: u32,
    pub span: Span,
}

/// The kinds of faults, and want of memory.
#[derive(Clone, Copy, Debug, PartialEq, Eq, Error)]
pub enum ParseKind {
    /// No file goes on with this token.
    #[error("no file goes on with this token")]
    Unexpected,
    /// Here expressions or patterns nest too deep.
    #[error("expressions or patterns nest too deep")]
    TooDeep,
    /// No memory was left.
    #[error("no memory was left")]
    Memory,
}
