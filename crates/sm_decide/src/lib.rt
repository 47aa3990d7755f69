//! Which move a node makes, as the rules of the source meaning say.
#![tactic(auto)]

ghost use Rattle.std.specs.Prelude.{◌≡◌, IfOk, take};
ghost use Rattle.ty_prog.specs.Node.{tree_of};
ghost use Rattle.ty_prog.specs.Shape.{shape};
ghost use Rattle.sm_rule.specs.Moves.{begun, caught, kept, received};
ghost use Rattle.sm_rule.specs.Step.{sight};

mod begin_pattern;
mod beginning;
mod catching;
mod computing;
mod keeping;
mod operands;
mod receive_pattern;
mod receiving;
mod texts;
mod values;

use begin_pattern::begin_pattern;
use beginning::{begin_case, begin_constructor, begin_expr, begin_stage};
use catching::catch_expr;
pub use catching::pass;
pub use keeping::kept;
pub use operands::next;
use receive_pattern::receive_pattern;
use receiving::{receive_case, receive_expr, receive_stage};
pub use sl_base::NoMemory;
use sm_rule::Move;
use sm_state::{Context, Stack, Value};
use std::alloc::Global;
pub use texts::plain;
use ty_prog::Node;
pub use values::{equal, same};

/// The move of the node at which a context stands, as it begins (SLS 5.1, 6, 8). Errors: want of memory.
pub fn begin(alloc: Global, c: &Context<'_>) -> Result<Move, NoMemory>
    ensures { IfOk result (λ m. m ≡ begun (sight c.now) (shape c.now.node)) }
{
    match c.node.node() {
        Node::Expr(e) => begin_expr(alloc, c, e),
        Node::Case(_) => begin_case(alloc, &c.operands),
        Node::Pattern(p) => begin_pattern(alloc, &c.operands, p),
        Node::Constructor(_) => Ok(begin_constructor(&c.this)),
        Node::Stage(stage) => begin_stage(alloc, c, stage),
    }
}

/// The move of a node that gets the value of its child with this number (SLS 5.1, 6, 8); the first operands are its own.
/// Errors: want of memory, also for a number past `u32` and a text whose length is no Int.
pub fn receive(
    alloc: Global,
    this: &Value,
    child: u32,
    v: &Value,
    operands: &Stack<Value>,
    node: Node<'_>,
) -> Result<Move, NoMemory>
    ensures { IfOk result (λ m. m ≡ received this.now child v.now (take (kept (shape (tree_of node.entry)) child) operands.now) (shape (tree_of node.entry))) }
{
    match node {
        Node::Expr(e) => receive_expr(alloc, this, child, v, operands, e),
        Node::Case(c) => receive_case(alloc, child, v, c.guard.is_some()),
        Node::Pattern(p) => receive_pattern(alloc, child, v, operands, p),
        Node::Constructor(class) => receive_stage(alloc, class, child, v),
        Node::Stage(_) => Ok(Move::Stuck),
    }
}

/// The move of a node out of whose child with this number an exception comes (SLS 6.20); None where it lets it go on.
/// Errors: want of memory, also for a number past `u32`.
pub fn catch(alloc: Global, child: u32, x: &Value, node: Node<'_>) -> Result<Option<Move>, NoMemory>
    ensures { IfOk result (λ m. m ≡ caught child x.now (shape (tree_of node.entry))) }
{
    match node {
        Node::Expr(e) => catch_expr(alloc, child, x, e),
        _ => Ok(None),
    }
}
