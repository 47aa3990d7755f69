//! Whether operands are what an operator wants (SLS 12.2).

ghost use Rattle.std.specs.Prelude.{◌≡◌, [], ◌∷◌, drop};
ghost use Rattle.ty_prog.specs.declared.ty.Ty.TheVariants as ty;
ghost use Rattle.ty_typed.specs.Stands.{all_fit};
ghost use Rattle.ty_typed.specs.NodeTyped.{operands_fit, two_of, shifted};
ghost use Rattle.ty_typed.specs.Parts.{list_of, types_of_each};
ghost use Rattle.ty_typed.specs.Scopes.{within, classes_of};

use crate::arguments::args_fit;
use crate::kinds::{common_of_all, first_number};
use crate::operands::Choices;
use crate::scope::Scope;
use sqlite_items::Items;
use ty_prog::{Expr, PrimOp, Ty};

const NONE: [Ty; 0] = [];

const INT: [Ty; 1] = [Ty::Int];

const BOOLEAN: [Ty; 1] = [Ty::Boolean];

const TEXT: [Ty; 1] = [Ty::Text];

const TEXTS: [Ty; 2] = [Ty::Text, Ty::Text];

const ANY: [Ty; 1] = [Ty::Any];

const ANYS: [Ty; 2] = [Ty::Any, Ty::Any];

/// Whether the operands are what the operator wants.
pub(crate) fn operands_fit(scope: Scope<'_>, op: PrimOp, args: &Items<Expr>) -> bool
    ensures { result ≡ operands_fit (classes_of scope.entry) op (within scope.entry types_of_each args.now) }
{
    match op {
        PrimOp::Add
        | PrimOp::Sub
        | PrimOp::Mul
        | PrimOp::Div
        | PrimOp::Rem
        | PrimOp::Less
        | PrimOp::AtMost
        | PrimOp::Greater
        | PrimOp::AtLeast => two_of(scope, Choices::Numbers, args),
        PrimOp::And | PrimOp::Or | PrimOp::Xor => two_of(scope, Choices::Bits, args),
        PrimOp::Shl | PrimOp::Shr | PrimOp::Ushr => shifted(scope, args),
        PrimOp::Not => args_fit(scope, args.as_slice(), &BOOLEAN),
        PrimOp::Same | PrimOp::Equals => args_fit(scope, args.as_slice(), &ANYS),
        PrimOp::Concat => args_fit(scope, args.as_slice(), &TEXTS),
        PrimOp::Length | PrimOp::IsEmpty => args_fit(scope, args.as_slice(), &TEXT),
        PrimOp::ToString | PrimOp::ClassName => args_fit(scope, args.as_slice(), &ANY),
        PrimOp::Evaluating | PrimOp::NullValue => args_fit(scope, args.as_slice(), &NONE),
    }
}

// Whether there are two operands, both of one of some types.
fn two_of(scope: Scope<'_>, choices: Choices, args: &Items<Expr>) -> bool
    ensures { result ≡ two_of (classes_of scope.entry) (list_of choices) (within scope.entry types_of_each args.now) }
{
    args.len() == 2 && common_of_all(scope, choices, args).is_some()
}

// Whether there is a number, and the Int that it is shifted by.
fn shifted(scope: Scope<'_>, args: &Items<Expr>) -> bool
    ensures { result ≡ shifted (classes_of scope.entry) (within scope.entry types_of_each args.now) }
{
    args.len() == 2 && first_number(scope, args).is_some() && has_distance(scope, args)
}

// Whether the second operand of a shift is an Int.
fn has_distance(scope: Scope<'_>, args: &Items<Expr>) -> bool
    ensures { result ≡ all_fit (classes_of scope.entry) (drop 1 (within scope.entry types_of_each args.now)) (ty.Int ∷ []) }
{
    match args.as_slice().split_first() {
        Some((_, behind)) => args_fit(scope, behind, &INT),
        None => false,
    }
}
