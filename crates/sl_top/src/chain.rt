use crate::operator::Operator;
use sqlite_items::Items;

/// An operator and the literal behind it.
#[derive(Clone, Copy, Debug)]
pub struct Term {
    pub op: Operator,
    pub literal: u32,
}

/// The literals and operators of one expression, in the order in which they stand.
#[derive(Debug, Drop)]
pub struct Chain {
    pub first: u32,
    pub rest: Items<Term>,
}
