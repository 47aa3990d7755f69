//! Kinds of classes.

/// What a class stands for (SLS 5.3 to 5.5).
#[derive(Clone, Copy, Debug, PartialEq, Eq)]
pub enum Kind {
    Class,
    Abstract,
    Trait,
    Object,
}
