//! Selected methods.

/// A method of a class, by their numbers.
#[derive(Clone, Copy, Debug, PartialEq, Eq)]
pub struct Target {
    pub class: u32,
    pub method: u32,
}
