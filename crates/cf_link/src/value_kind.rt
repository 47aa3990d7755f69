//! Kinds of values.

/// The kind of the values of a type (JVMS 2.11.1): an `int` for I and Z, a `long` for J, else a reference.
#[derive(Clone, Copy, Debug, PartialEq, Eq)]
pub enum ValueKind {
    Int,
    Long,
    Reference,
}
