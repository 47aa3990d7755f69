//! Words that begin definitions of values.

/// Whether a value can be assigned: `val`, or `var`.
#[derive(Clone, Copy, Debug, PartialEq, Eq)]
pub enum Binding {
    Val,
    Var,
}
