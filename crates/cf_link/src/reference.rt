//! What an entry of a constant pool resolves to.

/// What a pool entry resolves to (JVMS 5.4.3).
#[derive(Clone, Copy, Debug, PartialEq, Eq)]
pub enum LinkedRef {
    Int(i32),
    Long(i64),
    /// A text of the set, by its number.
    Text(u32),
    Class(u32),
    /// The class that declares an instance field, and the field's number among all fields of its objects.
    Field(u32, u32),
    /// The class that declares a static field, and the field's number among its static fields.
    Static(u32, u32),
    /// The class that declares a method, and the method's number among its methods.
    Method(u32, u32),
    /// An entry of another kind.
    Other,
}
