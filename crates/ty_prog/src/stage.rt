//! The stages of a constructor.

/// A stage of a constructor that is no expression (SLS 5.1).
#[derive(Clone, Copy, Debug, PartialEq, Eq)]
pub enum Stage {
    /// The next class parameter is stored into this field.
    Parameter(u32),
    /// The constructor of the superclass runs.
    Superclass,
    /// The statements of this trait run.
    Mixin(u32),
}
