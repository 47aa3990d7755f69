//! Faults of the lexer.

ghost use Rattle.std.specs.Prelude.{◌≡◌};

use sl_text::Span;
use thiserror::Error;

/// Why a text has no tokens, and where.
#[derive(Clone, Copy, Debug, PartialEq, Eq, Error)]
#[error("character {at}: {kind}", at = .span.from)]
pub struct LexFault {
    pub kind: LexKind,
    pub span: Span,
}

/// The kinds of lexical faults, and want of memory.
#[derive(Clone, Copy, Debug, PartialEq, Eq, Error)]
pub enum LexKind {
    /// No token begins here.
    #[error("no token begins here")]
    BadChar,
    /// A text literal whose line ends in it.
    #[error("a text literal that is not closed on its line")]
    OpenText,
    /// A comment that is never closed.
    #[error("a comment that is never closed")]
    OpenComment,
    /// A text literal with a wrong escape.
    #[error("a text literal with a wrong escape")]
    BadEscape,
    /// A `$`.
    #[error("a dollar sign")]
    Dollar,
    /// What begins with a digit and is no number.
    #[error("no number")]
    Number,
    /// One token more than a file may have.
    #[error("more tokens than a file may have")]
    TooMany,
    /// A text literal or a name that is too long.
    #[error("a text literal or a name that is too long")]
    LongText,
    /// No memory was left.
    #[error("no memory was left")]
    Memory,
}
