//! Faults of typing.

use sl_text::Span;
use thiserror::Error;

/// A rule of typing that is broken, and where.
#[derive(Clone, Copy, Debug, PartialEq, Eq, Error)]
#[error("character {at}: {kind}", at = .span.from)]
pub struct TypeFault {
    pub kind: TypeKind,
    pub span: Span,
}

/// The rules of typing, in the order of their numbers, and want of memory.
#[derive(Clone, Copy, Debug, PartialEq, Eq, Error)]
pub enum TypeKind {
    #[error("a name that means nothing here")]
    Unknown,
    #[error("no such type, or one that is not allowed here")]
    UnknownType,
    #[error("no such member")]
    Missing,
    #[error("an expression of another type than is wanted")]
    Mismatch,
    #[error("another number of arguments or of parts of a pattern than is wanted")]
    Arity,
    #[error("arguments of what takes none, or none of what takes some")]
    NotMethod,
    #[error("a class of which no object can be made")]
    NotNew,
    #[error("an assignment to what is no variable")]
    NotAssignable,
    #[error("a second definition of one name, or a modifier that stands twice")]
    Double,
    #[error("a name that templates may not have")]
    Reserved,
    #[error("a parent that this template may not have")]
    Parent,
    #[error("a template that is its own ancestor")]
    Cyclic,
    #[error("a member that may not stand for the one that it overrides")]
    Override,
    #[error("a member without a body where it wants one")]
    Abstract,
    #[error("a member whose type has to be written")]
    NoType,
    #[error("a private member outside its template")]
    Private,
    #[error("no such member behind the template in its linearisation")]
    Super,
    #[error("a pattern that no value of this type may have")]
    Pattern,
    #[error("a local before its definition")]
    Forward,
    #[error("a number that is too large")]
    Range,
    #[error("no object Main with a method main to begin with")]
    Entry,
    #[error("more templates or parameters than there may be")]
    TooMany,
    #[error("a body that is too large")]
    TooLarge,
    #[error("a template, or all of them together, that is too large")]
    TemplateTooLarge,
    /// No memory was left.
    #[error("no memory was left")]
    Memory,
}
