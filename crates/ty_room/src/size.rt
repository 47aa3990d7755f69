//! The sizes of trees.

/// What a tree takes in a class file, at most. Numbers that 32 bits don't hold stand as 4,294,967,295.
#[derive(Clone, Copy)]
pub struct Size {
    /// Bytes of code that leave its value.
    pub value: u32,
    /// Bytes of code that go on behind it where it is true, and jump away where it is false.
    pub test: u32,
    /// The literal that it is.
    pub fixed: Option<bool>,
    /// How many `try` stand in it.
    pub tries: u32,
    /// Bytes to keep parts in locals while a `try` runs.
    pub kept: u32,
    /// Entries of a constant pool.
    pub entries: u32,
    /// Calls by `super`.
    pub supers: u32,
}
