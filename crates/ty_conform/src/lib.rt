//! What the classes of a program are by their numbers, which type conforms to which, and the type that two branches
//! have together (SLS 5.1, 3.5.2, 6.16).
#![tactic(auto)]

ghost use Rattle.std.specs.Prelude.{◌≡◌};
ghost use Rattle.ty_conform.specs.Conforms.{conforms};
ghost use Rattle.ty_conform.specs.Join.{join};

mod inheriting;
mod joining;
mod kinds;
mod laws;

use inheriting::class_conforms;
pub use inheriting::inherits;
use joining::wider;
pub use kinds::{
    is_known, is_object, is_superclass, is_trait, is_trait_kind, reaches, superclass, superclass_of,
};
pub use laws::{carried_linearisations, conformance, found_members, inherited_members, joins};
use ty_prog::{Program, Ty};

/// Whether the first type conforms to the second (SLS 3.5.2). A number that is no class's conforms, as a type, to
/// itself, AnyRef and Any.
pub fn conforms(p: &Program, lower: &Ty, upper: &Ty) -> bool
    ensures { result ≡ conforms p.now.classes lower.now upper.now }
{
    match *lower {
        Ty::Nothing => true,
        Ty::Any => matches!(*upper, Ty::Any),
        Ty::AnyRef => matches!(*upper, Ty::Any | Ty::AnyRef),
        Ty::Null => matches!(
            *upper,
            Ty::Any | Ty::AnyRef | Ty::Null | Ty::Text | Ty::Class(_)
        ),
        Ty::Unit => matches!(*upper, Ty::Any | Ty::Unit),
        Ty::Boolean => matches!(*upper, Ty::Any | Ty::Boolean),
        Ty::Int => matches!(*upper, Ty::Any | Ty::Int),
        Ty::Long => matches!(*upper, Ty::Any | Ty::Long),
        Ty::Text => matches!(*upper, Ty::Any | Ty::AnyRef | Ty::Text),
        Ty::Array => matches!(*upper, Ty::Any | Ty::Array),
        Ty::Class(lower) => class_conforms(p.classes.as_slice(), lower, *upper),
    }
}

/// The type of a conditional with branches of two types, where none is wanted (SLS 6.16): the greater of the two,
/// Long for Int and Long, AnyRef where both conform to it, else Any.
pub fn join(p: &Program, one: &Ty, other: &Ty) -> Ty
    ensures { result ≡ join p.now.classes one.now other.now }
{
    if conforms(p, one, other) {
        *other
    } else if conforms(p, other, one) {
        *one
    } else {
        wider(p, one, other)
    }
}
