//! Operands as arguments.

ghost use Rattle.std.specs.Prelude.{◌≡◌, ◌+◌, nat_lt, take, IfOk, OnOk};
ghost use Rattle.std.specs.Option.{option_copied};
ghost use Rattle.sm_decide.specs.Forms.{pushed};
ghost use Rattle.sm_rule.specs.Moves.{arguments};
ghost use Rattle.sm_rule.specs.declared.moves.Move.TheVariants as move;

use sl_base::NoMemory;
use sm_rule::{Args, Move};
use sm_state::{Sequence, Stack, Value};
use std::alloc::Global;

/// One argument more, if there is one.
pub(crate) fn push_some(alloc: Global, made: &mut Args, v: Option<&Value>) -> Result<(), NoMemory>
    ensures { OnOk result (made.new ≡ pushed made.old (option_copied v.entry)) }
{
    match v {
        Some(v) => {
            made.push(Some(v.copy(alloc)?))?;
            Ok(())
        }
        None => Ok(()),
    }
}

/// So many operands and the last one, in order.
pub(crate) fn arguments(
    alloc: Global,
    operands: &Stack<Value>,
    count: usize,
    last: &Value,
) -> Result<Args, NoMemory>
    ensures { IfOk result (λ made. made ≡ arguments last.now (take count operands.now)) }
{
    let mut made = Sequence::new(alloc);
    let mut left = count;
    while left > 0 {
        left -= 1;
        push_some(alloc, &mut made, operands.get(left))?;
    }
    made.push(Some(last.copy(alloc)?))?;
    Ok(made)
}

/// The number of the next child. Errors: want of memory, where there is no room for it.
pub fn next(child: u32) -> Result<u32, NoMemory>
    ensures { IfOk result (λ n. n ≡ child + 1) }
{
    match child.checked_add(1) {
        Some(n) => Ok(n),
        None => Err(NoMemory),
    }
}

/// Whether another child stands behind this one.
pub(crate) fn has_next(count: usize, child: u32) -> bool
    ensures { result ≡ nat_lt (child + 1) count }
{
    (child as usize) + 1 < count
}

/// The value is kept as an operand, and the next child begins.
pub(crate) fn keep(alloc: Global, child: u32, v: &Value) -> Result<Move, NoMemory>
    ensures { IfOk result (λ m. m ≡ move.Keep (child + 1) v.now) }
{
    Ok(Move::Keep {
        child: next(child)?,
        value: v.copy(alloc)?,
    })
}
