//! Whether methods that AnyRef has are overridden with its parameters and result.

ghost use Rattle.std.specs.Prelude.{◌≡◌, ◌↔◌, ◌∷◌, [], IsTrue, codes, false};
ghost use Rattle.std.specs.List.{All};
ghost use Rattle.ty_prog.specs.declared.ty.Ty.TheVariants as ty;
ghost use Rattle.ty_complete.specs.Complete.{FitsAnyRef, MethodsFitAnyRef};

use crate::plain_text::is_text;
use ty_prog::{Class, Method, Name, Program, Ty};

/// Whether each `toString` and each `equals` that isn't static has the parameters and the result of AnyRef's (SLS
/// 12.1).
pub fn methods_fit_any_ref(p: &Program) -> bool
    ensures { IsTrue result ↔ MethodsFitAnyRef p.now }
{
    p.classes.as_slice().iter().all(class_fits)
}

// Whether all methods of a class fit those of AnyRef.
fn class_fits(class: &Class) -> bool
    ensures { IsTrue result ↔ All FitsAnyRef class.now.methods }
{
    class.methods.as_slice().iter().all(fits_any_ref)
}

// Whether a method fits those of AnyRef (SLS 12.1).
fn fits_any_ref(method: &Method) -> bool
    ensures { IsTrue result ↔ FitsAnyRef method.now }
{
    method.is_static || (text_fits(method) && equality_fits(method))
}

// Whether it has the signature of `toString`, if that is its name.
fn text_fits(method: &Method) -> bool
    ensures { IsTrue result ↔ (method.now.name ≡ codes "toString" → (method.now.params ≡ []) × (method.now.result ≡ ty.Text)) }
{
    !is_to_string(&method.name)
        || (has_none(method.params.as_slice()) && is_type(method.result, Ty::Text))
}

// Whether it has the signature of `equals`, if that is its name.
fn equality_fits(method: &Method) -> bool
    ensures { IsTrue result ↔ (method.now.name ≡ codes "equals" → (method.now.params ≡ ty.Any ∷ []) × (method.now.result ≡ ty.Boolean)) }
{
    !is_equals(&method.name)
        || (is_any_alone(method.params.as_slice()) && is_type(method.result, Ty::Boolean))
}

// Whether a name is `toString`.
fn is_to_string(name: &Name) -> bool
    ensures { IsTrue result ↔ (name.now ≡ codes "toString") }
{
    is_text(name, "toString")
}

// Whether a name is `equals`.
fn is_equals(name: &Name) -> bool
    ensures { IsTrue result ↔ (name.now ≡ codes "equals") }
{
    is_text(name, "equals")
}

// Whether there are no parameters.
fn has_none(params: &[Ty]) -> bool
    ensures { IsTrue result ↔ (params.now ≡ []) }
{
    params.is_empty()
}

// Whether Any is the only parameter.
fn is_any_alone(params: &[Ty]) -> bool
    ensures { IsTrue result ↔ (params.now ≡ ty.Any ∷ []) }
{
    match params {
        [only] => is_type(*only, Ty::Any),
        _ => false,
    }
}

// Whether two types are one.
fn is_type(one: Ty, other: Ty) -> bool
    ensures { IsTrue result ↔ (one ≡ other) }
{
    one == other
}
