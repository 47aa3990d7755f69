//! Whether arguments are what is wanted.

ghost use Rattle.std.specs.Prelude.{◌≡◌, option_copied};
ghost use Rattle.ty_typed.specs.Stands.{all_fit};
ghost use Rattle.ty_typed.specs.Members.{types_of_fields, param_types_at, first_params, super_params};
ghost use Rattle.ty_typed.specs.NodeTyped.{is_as, takes_args, all_fit_some};
ghost use Rattle.ty_typed.specs.Parts.{types_of_each, params_or_none};
ghost use Rattle.ty_typed.specs.Scopes.{within, classes_of};

use crate::expressions::expr_fits;
use crate::member_types::next_type;
use crate::scope::Scope;
use sqlite_items::{Items, at};
use ty_conform::{is_trait, is_trait_kind};
use ty_prog::{Class, Expr, Field, Method, Ty};

const NONE: [Ty; 0] = [];

/// Whether there are as many arguments as types are wanted, and each may stand where its type is wanted.
pub(crate) fn args_fit(scope: Scope<'_>, args: &[Expr], wanted: &[Ty]) -> bool
    ensures { result ≡ all_fit (classes_of scope.entry) (within scope.entry types_of_each args.now) wanted.now }
{
    let mut rest = wanted;
    for e in args {
        match rest.split_first() {
            Some((ty, more)) => {
                if !expr_fits(scope, e, *ty) {
                    return false;
                }
                rest = more;
            }
            None => return false,
        }
    }
    rest.is_empty()
}

// Whether the arguments are those that fields with these numbers want.
fn fields_take(scope: Scope<'_>, args: &Items<Expr>, fields: &[Field], params: &[u32]) -> bool
    ensures { result ≡ all_fit (classes_of scope.entry) (within scope.entry types_of_each args.now) (types_of_fields fields.now params.now) }
{
    let mut rest = params;
    for e in args.as_slice() {
        match next_type(fields, rest) {
            Some((ty, more)) => {
                if !expr_fits(scope, e, ty) {
                    return false;
                }
                rest = more;
            }
            None => return false,
        }
    }
    next_type(fields, rest).is_none()
}

/// Whether the method is there, is static or not as it should be, and takes the arguments.
pub(crate) fn takes_args(
    scope: Scope<'_>,
    is_static: bool,
    args: &[Expr],
    method: Option<&Method>,
) -> bool
    ensures { result ≡ takes_args (classes_of scope.entry) is_static (within scope.entry types_of_each args.now) (option_copied method.entry) }
{
    match method {
        Some(method) => {
            is_as(is_static, method.is_static) && args_fit(scope, args, method.params.as_slice())
        }
        None => false,
    }
}

fn is_as(wanted: bool, is_static: bool) -> bool
    ensures { result ≡ is_as wanted is_static }
{
    if wanted { is_static } else { !is_static }
}

/// Whether the constructor of a class takes the arguments.
pub(crate) fn class_takes(scope: Scope<'_>, class: u32, args: &Items<Expr>) -> bool
    ensures { result ≡ all_fit_some (classes_of scope.entry) (within scope.entry types_of_each args.now) (param_types_at (classes_of scope.entry) class) }
{
    match at(scope.program.classes.as_slice(), class as usize) {
        Some(class) => fields_take(
            scope,
            args,
            class.fields.as_slice(),
            class.params.as_slice(),
        ),
        None => false,
    }
}

/// Whether the superclass constructor of a class takes the arguments that the class hands it.
pub(crate) fn super_takes(scope: Scope<'_>, class: &Class) -> bool
    ensures { result ≡ all_fit (classes_of scope.entry) (within scope.entry types_of_each class.now.super_args) (super_params (classes_of scope.entry) class.now) }
{
    if is_trait_kind(class.kind) {
        args_fit(scope, class.super_args.as_slice(), &NONE)
    } else {
        first_takes(scope, class.parents.as_slice(), &class.super_args)
    }
}

// The same, by the parents of the class.
fn first_takes(scope: Scope<'_>, parents: &[u32], args: &Items<Expr>) -> bool
    ensures { result ≡ all_fit (classes_of scope.entry) (within scope.entry types_of_each args.now) (first_params (classes_of scope.entry) parents.now) }
{
    match parents.first() {
        Some(first) => {
            if is_trait(scope.program.classes.as_slice(), *first) {
                args_fit(scope, args.as_slice(), &NONE)
            } else {
                parent_takes(scope, *first, args)
            }
        }
        None => args_fit(scope, args.as_slice(), &NONE),
    }
}

// Whether the superclass takes these arguments.
fn parent_takes(scope: Scope<'_>, class: u32, args: &Items<Expr>) -> bool
    ensures { result ≡ all_fit (classes_of scope.entry) (within scope.entry types_of_each args.now) (params_or_none (classes_of scope.entry) class) }
{
    match at(scope.program.classes.as_slice(), class as usize) {
        Some(class) => fields_take(
            scope,
            args,
            class.fields.as_slice(),
            class.params.as_slice(),
        ),
        None => args_fit(scope, args.as_slice(), &NONE),
    }
}
