//! The type that two branches have together, where neither conforms to the other.

ghost use Rattle.std.specs.Prelude.{◌≡◌};
ghost use Rattle.ty_conform.specs.Join.{wider, shared};

use crate::conforms;
use ty_prog::{Program, Ty};

// Long for Int and Long, else what both conform to.
pub(crate) fn wider(p: &Program, one: &Ty, other: &Ty) -> Ty
    ensures { result ≡ wider p.now.classes one.now other.now }
{
    match *one {
        Ty::Int => match *other {
            Ty::Long => Ty::Long,
            _ => shared(p, one, other),
        },
        Ty::Long => match *other {
            Ty::Int => Ty::Long,
            _ => shared(p, one, other),
        },
        _ => shared(p, one, other),
    }
}

// AnyRef where both conform to it, else Any.
fn shared(p: &Program, one: &Ty, other: &Ty) -> Ty
    ensures { result ≡ shared p.now.classes one.now other.now }
{
    if conforms(p, one, &Ty::AnyRef) && conforms(p, other, &Ty::AnyRef) {
        Ty::AnyRef
    } else {
        Ty::Any
    }
}
