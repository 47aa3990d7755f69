//! Types.

/// The type of an expression, a field, a cell, a parameter or a result (SLS 3). A class is named by its number.
#[derive(Clone, Copy, Debug, PartialEq, Eq)]
pub enum Ty {
    Any,
    AnyRef,
    Nothing,
    Null,
    Unit,
    Boolean,
    Int,
    Long,
    /// `String`.
    Text,
    /// `Array[String]`, for the parameter of `main` alone.
    Array,
    Class(u32),
}
