//! The move of a node one of whose cases doesn't match, or out of whose child an exception comes.

ghost use Rattle.std.specs.Prelude.{◌≡◌, ◌+◌, take, IfOk, option_map};
ghost use Rattle.ty_prog.specs.Node.{tree_of};
ghost use Rattle.ty_prog.specs.Shape.{shape, handler_form, to_one};
ghost use Rattle.ty_prog.specs.Tree.{ExprTree};
ghost use Rattle.sm_rule.specs.Moves.{kept, unmatched, rethrown, passed, handled, finished, caught, handler_len};
ghost use Rattle.sm_rule.specs.declared.moves.Move.TheVariants as move;

use crate::keeping::{handler_len, kept};
use crate::operands::next;
use crate::receiving::last_at;
use sl_base::NoMemory;
use sm_rule::{Act, Move};
use sm_state::{Stack, Value};
use sqlite_items::Boxed;
use std::alloc::Global;
use ty_prog::{Catch, Expr, Node};

// MatchError for the value of a match.
fn unmatched(alloc: Global, own: usize, operands: &Stack<Value>) -> Result<Move, NoMemory>
    ensures { IfOk result (λ m. m ≡ unmatched (take own operands.now)) }
{
    if own == 0 {
        return Ok(Move::Stuck);
    }
    match operands.top() {
        Some(v) => Ok(Move::Do(Act::Unmatched(v.copy(alloc)?))),
        None => Ok(Move::Stuck),
    }
}

// The exception that a handler kept goes on.
fn rethrown(alloc: Global, own: usize, operands: &Stack<Value>) -> Result<Move, NoMemory>
    ensures { IfOk result (λ m. m ≡ rethrown (take own operands.now)) }
{
    if own == 0 {
        return Ok(Move::Stuck);
    }
    match operands.top() {
        Some(x) => Ok(Move::Raise(x.copy(alloc)?)),
        None => Ok(Move::Stuck),
    }
}

// An expression one of whose cases doesn't match: the next one is tried, or none is left.
fn pass_expr(
    alloc: Global,
    child: u32,
    own: usize,
    operands: &Stack<Value>,
    e: &Expr,
) -> Result<Move, NoMemory>
    ensures { IfOk result (λ m. m ≡ passed child (take own operands.now) (shape (ExprTree e.now))) }
{
    match e {
        Expr::Match { of: _, cases } => {
            if (child as usize) < cases.len() {
                Ok(Move::Turn(next(child)?))
            } else {
                unmatched(alloc, own, operands)
            }
        }
        Expr::Try {
            body: _,
            handler,
            ..
        } => {
            if (child as usize) < handler_len(handler) {
                Ok(Move::Turn(next(child)?))
            } else {
                rethrown(alloc, own, operands)
            }
        }
        _ => Ok(Move::Stuck),
    }
}

/// The move of a node whose case with this number doesn't match (SLS 6.20, 8.4); the first operands are its own. Errors:
/// want of memory, also for a number past `u32`.
pub fn pass(
    alloc: Global,
    child: u32,
    operands: &Stack<Value>,
    node: Node<'_>,
) -> Result<Move, NoMemory>
    ensures { IfOk result (λ m. m ≡ passed child (take (kept (shape (tree_of node.entry)) child) operands.now) (shape (tree_of node.entry))) }
{
    match node {
        Node::Expr(e) => pass_expr(alloc, child, kept(node, child), operands, e),
        _ => Ok(Move::Stuck),
    }
}

// What a handler does with an exception out of the body.
fn handled(
    alloc: Global,
    child: u32,
    x: &Value,
    handler: &Option<Catch>,
) -> Result<Option<Move>, NoMemory>
    ensures { IfOk result (λ m. m ≡ handled child x.now (option_map handler_form handler.now)) }
{
    if child > 0 {
        return Ok(None);
    }
    match handler {
        Some(Catch::Any { local, body: _ }) => Ok(Some(Move::Bind {
            local: *local,
            value: x.copy(alloc)?,
            child: 1,
        })),
        Some(Catch::Cases(cases)) => {
            if cases.len() == 0 {
                Ok(None)
            } else {
                Ok(Some(Move::Keep {
                    child: 1,
                    value: x.copy(alloc)?,
                }))
            }
        }
        None => Ok(None),
    }
}

// The `finally` that begins with an exception.
fn finished(
    alloc: Global,
    child: u32,
    x: &Value,
    handler: &Option<Catch>,
    last: &Option<Boxed<Expr>>,
) -> Result<Option<Move>, NoMemory>
    ensures { IfOk result (λ m. m ≡ finished child x.now (1 + handler_len (option_map handler_form handler.now)) (option_map to_one last.now)) }
{
    if last.is_none() {
        return Ok(None);
    }
    let at = last_at(handler)?;
    if child >= at {
        return Ok(None);
    }
    Ok(Some(Move::Shelve {
        child: at,
        raised: true,
        value: x.copy(alloc)?,
    }))
}

// An expression out of whose child an exception comes.
pub(crate) fn catch_expr(
    alloc: Global,
    child: u32,
    x: &Value,
    e: &Expr,
) -> Result<Option<Move>, NoMemory>
    ensures { IfOk result (λ m. m ≡ caught child x.now (shape (ExprTree e.now))) }
{
    match e {
        Expr::Try {
            body: _,
            handler,
            last,
        } => match handled(alloc, child, x, handler)? {
            Some(m) => Ok(Some(m)),
            None => finished(alloc, child, x, handler, last),
        },
        _ => Ok(None),
    }
}
