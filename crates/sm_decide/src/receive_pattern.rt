//! The move of a pattern that gets the value of a part.

ghost use Rattle.std.specs.Prelude.{◌≡◌, ◌+◌, true, false, take, IfOk};
ghost use Rattle.ty_prog.specs.Shape.{pattern_form, to_one};
ghost use Rattle.ty_prog.specs.declared.pattern.Pattern.{out-Pattern};
ghost use Rattle.sm_rule.specs.Moves.{bound, met, next_or, part_next, pattern_received, pattern_kept, branched};
ghost use Rattle.sm_rule.specs.declared.moves.Move.TheVariants as move;
ghost use Rattle.sm_state.specs.declared.value.Value.TheVariants as value;

use crate::operands::{has_next, next};
use sl_base::NoMemory;
use sm_rule::{Act, Move};
use sm_state::{Stack, Value};
use std::alloc::Global;
use ty_prog::Pattern;

// A variable of a pattern gets the value, where the pattern behind it matches.
fn bind(alloc: Global, local: u32, v: &Value, operands: &Stack<Value>) -> Result<Move, NoMemory>
    ensures { IfOk result (λ m. m ≡ bound local v.now (take 1 operands.now)) }
{
    match (v, operands.top()) {
        (Value::Bool(true), Some(kept)) => Ok(Move::Store {
            local,
            value: kept.copy(alloc)?,
            gives: Value::Bool(true),
        }),
        (Value::Bool(false), _) => Ok(Move::End(Value::Bool(false))),
        _ => Ok(Move::Stuck),
    }
}

// The literal or the object is compared with the value.
fn meet(alloc: Global, v: &Value, operands: &Stack<Value>) -> Result<Move, NoMemory>
    ensures { IfOk result (λ m. m ≡ met v.now (take 1 operands.now)) }
{
    match operands.top() {
        Some(kept) => Ok(Move::Do(Act::Compare {
            one: v.copy(alloc)?,
            other: kept.copy(alloc)?,
        })),
        None => Ok(Move::Stuck),
    }
}

// The part matches: the next one begins.
fn next_part(
    alloc: Global,
    class: u32,
    count: usize,
    child: u32,
    operands: &Stack<Value>,
) -> Result<Move, NoMemory>
    ensures { IfOk result (λ m. m ≡ part_next class count child (take 2 operands.now)) }
{
    let Some(of) = operands.get(1) else {
        return Ok(Move::Stuck);
    };
    if has_next(count, child) {
        Ok(Move::Open {
            class,
            index: next(child)?,
            of: of.copy(alloc)?,
        })
    } else {
        Ok(Move::End(Value::Bool(true)))
    }
}

// The next part of a pattern of a case class begins, or the pattern matches.
fn make(
    alloc: Global,
    class: u32,
    count: usize,
    child: u32,
    v: &Value,
    operands: &Stack<Value>,
) -> Result<Move, NoMemory>
    ensures { IfOk result (λ m. m ≡ branched v.now (part_next class count child (take 2 operands.now)) (move.End (value.Bool false))) }
{
    match v {
        Value::Bool(true) => next_part(alloc, class, count, child, operands),
        Value::Bool(false) => Ok(Move::End(Value::Bool(false))),
        _ => Ok(Move::Stuck),
    }
}

// The pattern doesn't match: the next one begins.
fn other(count: usize, child: u32) -> Result<Move, NoMemory>
    ensures { IfOk result (λ m. m ≡ next_or count child (move.Turn (child + 1)) (move.End (value.Bool false))) }
{
    if has_next(count, child) {
        Ok(Move::Turn(next(child)?))
    } else {
        Ok(Move::End(Value::Bool(false)))
    }
}

// The next alternative begins, or it is decided whether one matches.
fn either(count: usize, child: u32, v: &Value) -> Result<Move, NoMemory>
    ensures { IfOk result (λ m. m ≡ branched v.now (move.End (value.Bool true)) (next_or count child (move.Turn (child + 1)) (move.End (value.Bool false)))) }
{
    match v {
        Value::Bool(true) => Ok(Move::End(Value::Bool(true))),
        Value::Bool(false) => other(count, child),
        _ => Ok(Move::Stuck),
    }
}

/// The move of a pattern that gets the value of its child with this number; the first operands are its own.
pub(crate) fn receive_pattern(
    alloc: Global,
    child: u32,
    v: &Value,
    operands: &Stack<Value>,
    p: &Pattern,
) -> Result<Move, NoMemory>
    ensures { IfOk result (λ m. m ≡ pattern_received child v.now (take (pattern_kept (pattern_form (out-Pattern p.now))) operands.now) (pattern_form (out-Pattern p.now))) }
{
    match p {
        Pattern::Bind(local, _) => bind(alloc, *local, v, operands),
        Pattern::Literal(_) | Pattern::Object(_) => meet(alloc, v, operands),
        Pattern::Make { class, parts } => make(alloc, *class, parts.len(), child, v, operands),
        Pattern::Either(parts) => either(parts.len(), child, v),
        _ => Ok(Move::Stuck),
    }
}
