//! Operators in trees.

use crate::ident::Ident;

/// An operator of an infix expression: a name, or operator characters (SLS 6.12.3).
#[derive(Drop)]
pub enum Operator {
    Id(Ident),
    Op(Ident),
}

/// An operator before its operand (SLS 6.12.1): `-`, `+`, `!`, `~`.
#[derive(Clone, Copy, Debug, PartialEq, Eq)]
pub enum Sign {
    Minus,
    Plus,
    Not,
    Complement,
}
