//! What stands above a template.

/// What the name of a parent means: a class, trait or object is named by its number.
#[derive(Clone, Copy, Debug, PartialEq, Eq)]
pub enum Above {
    AnyRef,
    /// `String`.
    Text,
    Class(u32),
}
