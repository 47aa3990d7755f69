//! Threads.

use crate::part::Part;
use crate::sequence::Sequence;
use crate::spot::Spot;
use crate::stack::Stack;
use crate::value::Value;

/// A node on the way from a root, and the number of its child on that way.
#[derive(Drop)]
pub struct Level<'p> {
    pub node: Spot<'p>,
    pub child: u32,
}

/// A part of a class that is being evaluated, with `this`. It stands at a node; the levels are the nodes above it, from
/// the innermost on, and the operands are the values that those nodes keep, from the latest on.
#[derive(Drop)]
pub struct Context<'p> {
    pub class: u32,
    pub part: Part,
    pub this: Value,
    pub node: Spot<'p>,
    pub levels: Stack<Level<'p>>,
    pub operands: Stack<Value>,
    pub locals: Sequence<Option<Value>>,
}

/// A thread: its contexts, from the innermost on, and the value or the exception that is handed up. It has ended where
/// it has no context.
#[derive(Drop)]
pub struct Thread<'p> {
    pub contexts: Stack<Context<'p>>,
    pub value: Option<Value>,
    pub thrown: Option<Value>,
}
