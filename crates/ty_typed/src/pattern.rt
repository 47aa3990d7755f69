//! What a pattern asks of the types of the value that it looks at (SLS 8.1).

ghost use Rattle.std.specs.Prelude.{◌≡◌, map};
ghost use Rattle.std.specs.List.{list_all};
ghost use Rattle.ty_typed.specs.Members.{param_types_at, types_of_fields};
ghost use Rattle.ty_typed.specs.Types.{asks, may_be, made_of, parts_hold, is_tested};
ghost use Rattle.ty_typed.specs.Looked.{looked_types, asks_of_each};
ghost use Rattle.ty_typed.specs.Scopes.{within, classes_of};

use crate::looking::{Looked, have_one, looked_fits, takes};
use crate::member_types::next_type;
use crate::operands::Choices;
use crate::scope::Scope;
use sqlite_items::{Items, at};
use ty_conform::{is_known, is_object};
use ty_prog::{Class, Field, Pattern, Ty};

/// The types of the values that a pattern matches.
pub(crate) fn matched<'a>(scope: Scope<'_>, pattern: &Pattern, looked: Looked<'a>) -> Looked<'a>
    ensures { within scope.entry looked_types result
        ≡ (within scope.entry asks pattern.now).matched (within scope.entry looked_types looked.entry) }
{
    match pattern {
        Pattern::Any | Pattern::Literal(_) | Pattern::Object(_) | Pattern::Either(_) => looked,
        Pattern::Bind(_, part) => matched(scope, part.get(), looked),
        Pattern::OfType(ty) => Looked::Is(*ty),
        Pattern::Make { class, .. } => Looked::Is(Ty::Class(*class)),
    }
}

/// Whether a pattern may look at the value, and its locals may hold what it binds.
#[cycle(holding)]
pub fn pattern_holds(scope: Scope<'_>, pattern: &Pattern, looked: Looked<'_>) -> bool
    ensures { result ≡ (within scope.entry asks pattern.now).holds (within scope.entry looked_types looked.entry) }
{
    match pattern {
        Pattern::Any => true,
        Pattern::Bind(local, part) => {
            pattern_holds(scope, part.get(), looked)
                && takes(scope, *local, matched(scope, part.get(), looked))
        }
        Pattern::OfType(ty) => may_be(scope, looked, *ty),
        Pattern::Literal(e) => {
            looked_fits(scope, looked, Ty::Any)
                || have_one(scope, Choices::Compared, looked, e.get())
        }
        Pattern::Object(class) => {
            is_object(scope.program.classes.as_slice(), *class)
                && looked_fits(scope, looked, Ty::Any)
        }
        Pattern::Make { class, parts } => {
            looked_fits(scope, looked, Ty::Any) && made_of(scope, *class, parts)
        }
        Pattern::Either(parts) => each_holds(scope, parts, looked),
    }
}

// Whether each part of alternatives holds.
#[cycle(holding)]
fn each_holds(scope: Scope<'_>, parts: &Items<Pattern>, looked: Looked<'_>) -> bool
    ensures { result ≡ list_all (λ part. part.holds (within scope.entry looked_types looked.entry)) (within scope.entry asks_of_each parts.now) }
{
    for part in parts.as_slice() {
        if !pattern_holds(scope, part, looked) {
            return false;
        }
    }
    true
}

// Whether the parts of a pattern of a case class hold of the class parameters.
#[cycle(holding)]
fn made_of(scope: Scope<'_>, class: u32, parts: &Items<Pattern>) -> bool
    ensures { result ≡ within scope.entry made_of (within scope.entry asks_of_each parts.now) (param_types_at (classes_of scope.entry) class) }
{
    match at(scope.program.classes.as_slice(), class as usize) {
        Some(class) => parts_hold(
            scope,
            parts,
            class.fields.as_slice(),
            class.params.as_slice(),
        ),
        None => false,
    }
}

// Whether each pattern holds of the value of its parameter.
#[cycle(holding)]
fn parts_hold(scope: Scope<'_>, parts: &Items<Pattern>, fields: &[Field], params: &[u32]) -> bool
    ensures { result ≡ within scope.entry parts_hold (within scope.entry asks_of_each parts.now) (types_of_fields fields.now params.now) }
{
    let mut rest = params;
    for part in parts.as_slice() {
        match next_type(fields, rest) {
            Some((ty, more)) => {
                if !pattern_holds(scope, part, Looked::Is(ty)) {
                    return false;
                }
                rest = more;
            }
            None => return false,
        }
    }
    next_type(fields, rest).is_none()
}

// Whether the value may be of a type, or is.
fn may_be(scope: Scope<'_>, looked: Looked<'_>, ty: Ty) -> bool
    ensures { result ≡ within scope.entry may_be (within scope.entry looked_types looked.entry) ty }
{
    is_tested(scope.program.classes.as_slice(), ty)
        && (looked_fits(scope, looked, Ty::Any) || looked_fits(scope, looked, ty))
}

/// Whether a value can be tested for a type.
pub(crate) fn is_tested(classes: &[Class], ty: Ty) -> bool
    ensures { result ≡ is_tested classes.now ty }
{
    match ty {
        Ty::Boolean | Ty::Int | Ty::Long | Ty::Text => true,
        Ty::Class(_) => is_known(classes, ty),
        Ty::Any | Ty::AnyRef | Ty::Nothing | Ty::Null | Ty::Unit | Ty::Array => false,
    }
}
