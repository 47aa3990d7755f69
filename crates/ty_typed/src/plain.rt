//! The types of expressions that don't hang on those of parts.

ghost use Rattle.std.specs.Prelude.{◌≡◌, option_to_list, option_map, slice_get};
ghost use Rattle.ty_prog.specs.declared.expr.Expr.{out-Expr};
ghost use Rattle.ty_prog.specs.declared.ty.Ty.TheVariants as ty;
ghost use Rattle.ty_typed.specs.Types.{plain_types};

use crate::member_types::{cell_type, field_type, result_at, super_result};
use crate::scope::Scope;
use sqlite_items::at;
use ty_prog::{Expr, Ty};

/// The type of an expression that doesn't hang on those of parts, if it has one.
pub(crate) fn plain_type(scope: Scope<'_>, e: &Expr) -> Option<Ty>
    ensures { option_to_list result ≡ plain_types scope.entry.program.now scope.entry.this scope.entry.locals.now (out-Expr e.now) }
{
    let classes = scope.program.classes.as_slice();
    match e {
        Expr::Int(_) => Some(Ty::Int),
        Expr::Long(_) => Some(Ty::Long),
        Expr::Bool(_)
        | Expr::Equal(..)
        | Expr::Test { .. }
        | Expr::Cas { .. }
        | Expr::OwnedHere(_) => Some(Ty::Boolean),
        Expr::Text(_) | Expr::TextOf(_) => Some(Ty::Text),
        Expr::Null => Some(Ty::Null),
        Expr::Throw(_) => Some(Ty::Nothing),
        Expr::NewLatch(_) => Some(Ty::Any),
        Expr::Local(local) => local_type(scope.locals, *local),
        Expr::This => this_type(scope.this),
        Expr::Get { class, field, .. } => field_type(classes, *class, *field),
        Expr::LazyGet { class, cell, .. } => cell_type(classes, *class, *cell),
        Expr::Call { class, method, .. } | Expr::StaticCall { class, method, .. } => {
            result_at(classes, *class, *method)
        }
        Expr::SuperCall { after, name, .. } => {
            super_result(scope.program, scope.this, *after, name)
        }
        Expr::New { class, .. } | Expr::ObjectGet(class) | Expr::ModuleGet(class) => {
            Some(Ty::Class(*class))
        }
        Expr::Convert { to, .. } => Some(*to),
        _ => Some(Ty::Unit),
    }
}

/// The type of a local.
pub(crate) fn local_type(locals: &[Ty], local: u32) -> Option<Ty>
    ensures { result ≡ slice_get locals.now local }
{
    match at(locals, local as usize) {
        Some(ty) => Some(*ty),
        None => None,
    }
}

// The type of `this`, where there is one.
fn this_type(this: Option<u32>) -> Option<Ty>
    ensures { result ≡ option_map ty.Class this }
{
    match this {
        Some(class) => Some(Ty::Class(class)),
        None => None,
    }
}
