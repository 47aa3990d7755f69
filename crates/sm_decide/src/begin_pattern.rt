//! The move of a pattern that begins.

ghost use Rattle.std.specs.Prelude.{◌≡◌, map, IfOk};
ghost use Rattle.ty_prog.specs.Shape.{pattern_form, to_one};
ghost use Rattle.ty_prog.specs.declared.pattern.Pattern.{out-Pattern};
ghost use Rattle.sm_rule.specs.Moves.{making_begun, either_begun, looked, pattern_begun};
ghost use Rattle.sm_rule.specs.declared.moves.Move.TheVariants as move;
ghost use Rattle.sm_rule.specs.declared.act.Act.TheVariants as act;
ghost use Rattle.ty_prog.specs.declared.tested.Tested.TheVariants as tested;

use sl_base::NoMemory;
use sm_rule::{Act, Move};
use sm_state::{Stack, Value};
use std::alloc::Global;
use ty_prog::{Pattern, Tested, Ty};

// A test of the value for a type.
fn test(alloc: Global, v: &Value, ty: Ty) -> Result<Move, NoMemory>
    ensures { IfOk result (λ m. m ≡ move.Do (act.Test v.now (tested.OfType ty))) }
{
    Ok(Move::Do(Act::Test {
        of: v.copy(alloc)?,
        test: Tested::OfType(ty),
    }))
}

// The value is kept for the first part.
fn keep(alloc: Global, v: &Value) -> Result<Move, NoMemory>
    ensures { IfOk result (λ m. m ≡ move.Keep 0 v.now) }
{
    Ok(Move::Keep {
        child: 0,
        value: v.copy(alloc)?,
    })
}

// A pattern of a case class: the value is tested, or its first part begins.
fn making(alloc: Global, v: &Value, class: u32, parts: &[Pattern]) -> Result<Move, NoMemory>
    ensures { IfOk result (λ m. m ≡ making_begun v.now class (map to_one parts.now)) }
{
    if parts.len() == 0 {
        test(alloc, v, Ty::Class(class))
    } else {
        Ok(Move::Open {
            class,
            index: 0,
            of: v.copy(alloc)?,
        })
    }
}

// Alternatives: the first begins.
fn either(alloc: Global, v: &Value, parts: &[Pattern]) -> Result<Move, NoMemory>
    ensures { IfOk result (λ m. m ≡ either_begun v.now (map to_one parts.now)) }
{
    if parts.len() == 0 {
        Ok(Move::End(Value::Bool(false)))
    } else {
        keep(alloc, v)
    }
}

// A pattern by its form, with the value that it looks at.
fn look(alloc: Global, v: &Value, p: &Pattern) -> Result<Move, NoMemory>
    ensures { IfOk result (λ m. m ≡ looked v.now (pattern_form (out-Pattern p.now))) }
{
    match p {
        Pattern::Any => Ok(Move::End(Value::Bool(true))),
        Pattern::Bind(..) | Pattern::Literal(_) => keep(alloc, v),
        Pattern::OfType(ty) => test(alloc, v, *ty),
        Pattern::Object(class) => Ok(Move::Again {
            own: Some(v.copy(alloc)?),
            child: 0,
            act: Act::ReadModule(*class),
        }),
        Pattern::Make { class, parts } => making(alloc, v, *class, parts.as_slice()),
        Pattern::Either(parts) => either(alloc, v, parts.as_slice()),
    }
}

/// The move of a pattern, which looks at the value that the node above keeps for it.
pub(crate) fn begin_pattern(
    alloc: Global,
    operands: &Stack<Value>,
    p: &Pattern,
) -> Result<Move, NoMemory>
    ensures { IfOk result (λ m. m ≡ pattern_begun operands.now (pattern_form (out-Pattern p.now))) }
{
    match operands.top() {
        Some(v) => look(alloc, v, p),
        None => Ok(Move::Stuck),
    }
}
