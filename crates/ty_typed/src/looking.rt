//! The value that a pattern looks at, or that a place takes, by its types.

ghost use Rattle.std.specs.Prelude.{◌≡◌, is_some, [], ◌∷◌};
ghost use Rattle.ty_typed.specs.Stands.{fits, common};
ghost use Rattle.ty_typed.specs.Types.{takes, types_of};
ghost use Rattle.ty_typed.specs.Parts.{list_of};
ghost use Rattle.ty_typed.specs.Looked.{looked_types};
ghost use Rattle.ty_typed.specs.Scopes.{within, classes_of};

use crate::expressions::expr_fits;
use crate::operands::{Choices, list_of};
use crate::plain::local_type;
use crate::scope::Scope;
use crate::standing::stands_for;
use ty_prog::{Expr, Ty};

/// The types of the value that a pattern looks at: those of an expression, or one type.
#[derive(Clone, Copy)]
pub enum Looked<'a> {
    At(&'a Expr),
    Is(Ty),
}

/// Whether the value may stand where one of a type is wanted.
pub(crate) fn looked_fits(scope: Scope<'_>, looked: Looked<'_>, wanted: Ty) -> bool
    ensures { result ≡ fits (classes_of scope.entry) (within scope.entry looked_types looked.entry) wanted }
{
    match looked {
        Looked::At(e) => expr_fits(scope, e, wanted),
        Looked::Is(ty) => stands_for(scope.program, ty, wanted),
    }
}

/// Whether a local may hold the value.
pub(crate) fn takes(scope: Scope<'_>, local: u32, looked: Looked<'_>) -> bool
    ensures { result ≡ within scope.entry takes local (within scope.entry looked_types looked.entry) }
{
    match local_type(scope.locals, local) {
        Some(ty) => looked_fits(scope, looked, ty),
        None => false,
    }
}

/// Whether the value may stand where one of some types is wanted.
pub(crate) fn has_one(scope: Scope<'_>, choices: Choices, e: &Expr) -> bool
    ensures { result ≡ is_some (common (classes_of scope.entry) (list_of choices) (within scope.entry types_of e.now ∷ [])) }
{
    for choice in list_of(choices) {
        if expr_fits(scope, e, *choice) {
            return true;
        }
    }
    false
}

/// Whether the value and that of an expression may both stand where one of some types is wanted.
pub(crate) fn have_one(scope: Scope<'_>, choices: Choices, looked: Looked<'_>, e: &Expr) -> bool
    ensures { result ≡ is_some (common (classes_of scope.entry) (list_of choices)
        (within scope.entry looked_types looked.entry ∷ within scope.entry types_of e.now ∷ [])) }
{
    for choice in list_of(choices) {
        if looked_fits(scope, looked, *choice) && expr_fits(scope, e, *choice) {
            return true;
        }
    }
    false
}
