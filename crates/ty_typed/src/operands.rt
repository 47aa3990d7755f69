//! How the type of what an operator gives hangs on its operands (SLS 12.2).

ghost use Rattle.std.specs.Prelude.{◌≡◌};
ghost use Rattle.ty_typed.specs.Parts.{list_of, given_by};

use ty_prog::{PrimOp, Ty};

/// Types of which one is wanted of some values.
#[derive(Clone, Copy)]
pub(crate) enum Choices {
    Numbers,
    Bits,
    Compared,
    Kinds,
}

/// The type of what an operator gives: a fixed one, a common one of its operands, or the type of the first of them.
#[derive(Clone, Copy)]
pub(crate) enum Given {
    Fixed(Ty),
    OfAll(Choices),
    OfFirst,
}

const NUMBERS: [Ty; 2] = [Ty::Int, Ty::Long];

const BITS: [Ty; 3] = [Ty::Int, Ty::Long, Ty::Boolean];

const COMPARED: [Ty; 5] = [Ty::Any, Ty::Unit, Ty::Boolean, Ty::Int, Ty::Long];

const KINDS: [Ty; 6] = [Ty::Any, Ty::Unit, Ty::Boolean, Ty::Int, Ty::Long, Ty::Array];

/// The types of which one is wanted, in order.
pub(crate) fn list_of(choices: Choices) -> &'static [Ty]
    ensures { result.now ≡ list_of choices }
{
    match choices {
        Choices::Numbers => &NUMBERS,
        Choices::Bits => &BITS,
        Choices::Compared => &COMPARED,
        Choices::Kinds => &KINDS,
    }
}

/// The type of what an operator gives.
pub(crate) fn given_by(op: PrimOp) -> Given
    ensures { result ≡ given_by op }
{
    match op {
        PrimOp::Add | PrimOp::Sub | PrimOp::Mul | PrimOp::Div | PrimOp::Rem => {
            Given::OfAll(Choices::Numbers)
        }
        PrimOp::And | PrimOp::Or | PrimOp::Xor => Given::OfAll(Choices::Bits),
        PrimOp::Shl | PrimOp::Shr | PrimOp::Ushr => Given::OfFirst,
        PrimOp::Concat | PrimOp::ToString | PrimOp::ClassName => Given::Fixed(Ty::Text),
        PrimOp::Length => Given::Fixed(Ty::Int),
        PrimOp::Evaluating | PrimOp::NullValue => Given::Fixed(Ty::Any),
        PrimOp::Less
        | PrimOp::AtMost
        | PrimOp::Greater
        | PrimOp::AtLeast
        | PrimOp::Not
        | PrimOp::Same
        | PrimOp::IsEmpty
        | PrimOp::Equals => Given::Fixed(Ty::Boolean),
    }
}
