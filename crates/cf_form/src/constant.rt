//! Entries of the constant pool.

use sl_base::Name;

/// An entry of the constant pool (JVMS 4.4). The numbers are indexes of the pool.
#[derive(Debug, Drop)]
pub enum Const {
    Utf8(Name),
    Int(i32),
    /// The bits.
    Float(u32),
    Long(i64),
    /// The bits.
    Double(u64),
    Class(u16),
    /// `CONSTANT_String`.
    Text(u16),
    /// A class, and a name with its descriptor.
    Field(u16, u16),
    /// A class, and a name with its descriptor.
    Method(u16, u16),
    /// An interface, and a name with its descriptor.
    Interface(u16, u16),
    /// A name and a descriptor.
    NameType(u16, u16),
    /// The second of the two entries that a Long or Double takes (JVMS 4.4.5).
    Rest,
}
