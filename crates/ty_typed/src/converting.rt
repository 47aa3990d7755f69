//! Which value can be made one of which type: widened, boxed, unboxed or narrowed (SLS 6.26.1, 12.2).

ghost use Rattle.std.specs.Prelude.{◌≡◌};
ghost use Rattle.ty_typed.specs.NodeTyped.{converts, narrows_to};

use ty_conform::is_known;
use ty_prog::{Class, Ty};

/// Whether a value of the first type can be made one of the second.
pub(crate) fn converts(classes: &[Class], from: Ty, to: Ty) -> bool
    ensures { result ≡ converts classes.now from to }
{
    match from {
        Ty::Array => false,
        Ty::Int => matches!(to, Ty::Any | Ty::Long),
        Ty::Long => matches!(to, Ty::Any | Ty::Int),
        Ty::Boolean | Ty::Unit => matches!(to, Ty::Any),
        Ty::Any | Ty::AnyRef | Ty::Nothing | Ty::Null | Ty::Text | Ty::Class(_) => {
            narrows_to(classes, to)
        }
    }
}

// Whether a reference can be narrowed to a type, or unboxed.
fn narrows_to(classes: &[Class], to: Ty) -> bool
    ensures { result ≡ narrows_to classes.now to }
{
    match to {
        Ty::Nothing | Ty::Null | Ty::Array => false,
        _ => is_known(classes, to),
    }
}
