//! Tests of values.

use crate::ty::Ty;

/// What a value is tested for: a type, being a latch, or being the control value of a thread that evaluates a lazy
/// member.
#[derive(Clone, Copy, Debug, PartialEq, Eq)]
pub enum Tested {
    OfType(Ty),
    Latch,
    Evaluating,
}
