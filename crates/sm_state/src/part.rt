//! Parts of classes.

/// A part of a class that is evaluated: a method, the initialiser of a cell, or the constructor, by its number.
#[derive(Clone, Copy, Debug, PartialEq, Eq)]
pub enum Part {
    Method(u32),
    Init(u32),
    Constructor,
}
