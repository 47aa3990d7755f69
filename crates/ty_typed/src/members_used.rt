//! Whether the uses of members are typed: the object is one of the class, and the value what the member wants.

ghost use Rattle.std.specs.Prelude.{◌≡◌, ◌&&◌, ◌||◌, true, false, is_some, option_copied};
ghost use Rattle.std.specs.Option.{unwrap_or};
ghost use Rattle.ty_prog.specs.declared.ty.Ty.TheVariants as ty;
ghost use Rattle.ty_typed.specs.Stands.{is_any};
ghost use Rattle.ty_typed.specs.Members.{field_type, cell_type, method_at, super_method};
ghost use Rattle.ty_conform.specs.Kinds.{is_object};
ghost use Rattle.ty_typed.specs.NodeTyped.{expr_fits, fits_some, takes_args, can_test, calls_above, is_above};
ghost use Rattle.ty_typed.specs.Types.{types_of};
ghost use Rattle.ty_typed.specs.Parts.{types_of_each};
ghost use Rattle.ty_typed.specs.Scopes.{within, classes_of};

use crate::arguments::takes_args;
use crate::expressions::expr_fits;
use crate::member_types::{cell_type, field_type, method_at, super_method};
use crate::pattern::is_tested;
use crate::scope::Scope;
use crate::standing::is_any;
use sqlite_items::Items;
use ty_conform::{is_object, is_superclass};
use ty_prog::{Class, Expr, Method, Name, Tested, Ty};

/// Whether a field of an object is there to be read.
pub(crate) fn get_typed(scope: Scope<'_>, of: &Expr, class: u32, field: u32) -> bool
    ensures { result ≡ (within scope.entry expr_fits of.now (ty.Class class) && is_some (field_type (classes_of scope.entry) class field)) }
{
    let classes = scope.program.classes.as_slice();
    expr_fits(scope, of, Ty::Class(class)) && field_type(classes, class, field).is_some()
}

/// Whether a field of an object may hold a value.
pub(crate) fn put_typed(scope: Scope<'_>, of: &Expr, class: u32, field: u32, value: &Expr) -> bool
    ensures { result ≡ (within scope.entry expr_fits of.now (ty.Class class)
        && fits_some (classes_of scope.entry) (within scope.entry types_of value.now) (field_type (classes_of scope.entry) class field)) }
{
    let ty = field_type(scope.program.classes.as_slice(), class, field);
    expr_fits(scope, of, Ty::Class(class)) && fits_some(scope, value, ty)
}

fn fits_some(scope: Scope<'_>, e: &Expr, wanted: Option<Ty>) -> bool
    ensures { result ≡ fits_some (classes_of scope.entry) (within scope.entry types_of e.now) wanted }
{
    match wanted {
        Some(wanted) => expr_fits(scope, e, wanted),
        None => false,
    }
}

/// Whether a method of an object takes the arguments.
pub(crate) fn call_typed(
    scope: Scope<'_>,
    of: &Expr,
    class: u32,
    method: u32,
    args: &Items<Expr>,
) -> bool
    ensures { result ≡ (within scope.entry expr_fits of.now (ty.Class class)
        && takes_args (classes_of scope.entry) false (within scope.entry types_of_each args.now) (method_at (classes_of scope.entry) class method)) }
{
    let called = method_at(scope.program.classes.as_slice(), class, method);
    expr_fits(scope, of, Ty::Class(class)) && takes_args(scope, false, args.as_slice(), called)
}

/// Whether the method that `super` means takes the arguments.
pub(crate) fn super_typed(scope: Scope<'_>, after: u32, name: &Name, args: &Items<Expr>) -> bool
    ensures { result ≡ takes_args (classes_of scope.entry) false (within scope.entry types_of_each args.now)
        (super_method scope.entry.program.now scope.entry.this after name.now) }
{
    let called = super_method(scope.program, scope.this, after, name);
    takes_args(scope, false, args.as_slice(), called)
}

/// Whether a static method takes the arguments, or a method of a superclass that is called without selection.
pub(crate) fn static_typed(scope: Scope<'_>, class: u32, method: u32, args: &Items<Expr>) -> bool
    ensures { result ≡ (takes_args (classes_of scope.entry) true (within scope.entry types_of_each args.now) (method_at (classes_of scope.entry) class method)
        || within scope.entry calls_above class (method_at (classes_of scope.entry) class method) args.now) }
{
    let called = method_at(scope.program.classes.as_slice(), class, method);
    takes_args(scope, true, args.as_slice(), called)
        || calls_above(scope, class, called, args.as_slice())
}

// Whether a concrete method of a superclass takes `This` as its object, and the other arguments.
fn calls_above(scope: Scope<'_>, class: u32, method: Option<&Method>, args: &[Expr]) -> bool
    ensures { result ≡ within scope.entry calls_above class (option_copied method.entry) args.now }
{
    match args.split_first() {
        Some((first, rest)) => match method {
            Some(called) => {
                matches!(*first, Expr::This)
                    && is_above(scope, class)
                    && called.body.is_some()
                    && takes_args(scope, false, rest, method)
            }
            None => false,
        },
        None => false,
    }
}

// Whether a class is a superclass of the one whose object `This` is.
fn is_above(scope: Scope<'_>, class: u32) -> bool
    ensures { result ≡ within scope.entry is_above class }
{
    match scope.this {
        Some(lower) => is_superclass(scope.program.classes.as_slice(), lower, class),
        None => false,
    }
}

/// Whether a cell of an object is there to be read.
pub(crate) fn lazy_typed(scope: Scope<'_>, of: &Expr, class: u32, cell: u32) -> bool
    ensures { result ≡ (within scope.entry expr_fits of.now (ty.Class class) && is_some (cell_type (classes_of scope.entry) class cell)) }
{
    let classes = scope.program.classes.as_slice();
    expr_fits(scope, of, Ty::Class(class)) && cell_type(classes, class, cell).is_some()
}

/// Whether a field of an object that holds a reference may be exchanged.
pub(crate) fn cas_typed(
    scope: Scope<'_>,
    of: &Expr,
    class: u32,
    field: u32,
    old: &Expr,
    new: &Expr,
) -> bool
    ensures { result ≡ (within scope.entry expr_fits of.now (ty.Class class)
        && is_any (unwrap_or (field_type (classes_of scope.entry) class field) ty.Nothing)
        && within scope.entry expr_fits old.now ty.Any && within scope.entry expr_fits new.now ty.Any) }
{
    expr_fits(scope, of, Ty::Class(class))
        && is_any_field(scope.program.classes.as_slice(), class, field)
        && expr_fits(scope, old, Ty::Any)
        && expr_fits(scope, new, Ty::Any)
}

// Whether a field is declared as Any.
fn is_any_field(classes: &[Class], class: u32, field: u32) -> bool
    ensures { result ≡ is_any (unwrap_or (field_type classes.now class field) ty.Nothing) }
{
    match field_type(classes, class, field) {
        Some(ty) => is_any(ty),
        None => false,
    }
}

/// Whether an object may be put into the place of its module.
pub(crate) fn module_typed(scope: Scope<'_>, class: u32, e: &Expr) -> bool
    ensures { result ≡ (is_object (classes_of scope.entry) class && within scope.entry expr_fits e.now (ty.Class class)) }
{
    is_object(scope.program.classes.as_slice(), class) && expr_fits(scope, e, Ty::Class(class))
}

/// Whether a reference may be tested.
pub(crate) fn test_typed(scope: Scope<'_>, of: &Expr, test: Tested) -> bool
    ensures { result ≡ (within scope.entry expr_fits of.now ty.Any && can_test (classes_of scope.entry) test) }
{
    expr_fits(scope, of, Ty::Any) && can_test(scope.program.classes.as_slice(), test)
}

fn can_test(classes: &[Class], test: Tested) -> bool
    ensures { result ≡ can_test classes.now test }
{
    match test {
        Tested::Latch | Tested::Evaluating => true,
        Tested::OfType(ty) => is_tested(classes, ty),
    }
}
