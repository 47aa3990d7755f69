//! Which value may stand, as it is, where one of a type is wanted.

ghost use Rattle.std.specs.Prelude.{◌≡◌};
ghost use Rattle.ty_typed.specs.Stands.{stands_for, is_any, is_apart};

use ty_conform::conforms;
use ty_prog::{Program, Ty};

/// Whether a value of the first type may stand where one of the second is wanted.
pub fn stands_for(p: &Program, lower: Ty, upper: Ty) -> bool
    ensures { result ≡ stands_for p.now.classes lower upper }
{
    conforms(p, &lower, &upper) && !(is_apart(lower) && is_any(upper))
}

pub(crate) fn is_any(ty: Ty) -> bool
    ensures { result ≡ is_any ty }
{
    matches!(ty, Ty::Any)
}

fn is_apart(ty: Ty) -> bool
    ensures { result ≡ is_apart ty }
{
    matches!(ty, Ty::Unit | Ty::Boolean | Ty::Int | Ty::Long | Ty::Array)
}
