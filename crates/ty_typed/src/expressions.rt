//! Whether the values of expressions may stand where some type is wanted: the one recursion over expressions.

ghost use Rattle.std.specs.Prelude.{◌≡◌, map};
ghost use Rattle.ty_typed.specs.Scopes.{within, classes_of};
ghost use Rattle.ty_typed.specs.Types.{types_of, last_of, all_of, prim_types};
ghost use Rattle.ty_typed.specs.NodeTyped.{expr_fits};
ghost use Rattle.ty_typed.specs.Parts.{all_suit, types_of_each, types_of_case, types_of_handler};

use crate::kinds::prim_type;
use crate::plain::plain_type;
use crate::scope::Scope;
use crate::wanting::{Wanted, some_suits, suits};
use sqlite_items::Items;
use ty_prog::{Case, Catch, Expr, PrimOp, Ty};

/// Whether the values of an expression may stand where one of a type is wanted.
pub fn expr_fits(scope: Scope<'_>, e: &Expr, wanted: Ty) -> bool
    ensures { result ≡ within scope.entry expr_fits e.now wanted }
{
    all_suit(scope, e, Wanted::Stands(wanted))
}

/// Whether each type of the values of an expression is what is wanted.
#[cycle(fitting)]
pub(crate) fn all_suit(scope: Scope<'_>, e: &Expr, wanted: Wanted) -> bool
    ensures { result ≡ all_suit (classes_of scope.entry) wanted (within scope.entry types_of e.now) }
{
    match e {
        Expr::If(_, a, b) => all_suit(scope, a.get(), wanted) && all_suit(scope, b.get(), wanted),
        Expr::Block(es) => last_suits(scope, es, wanted),
        Expr::Try { body, handler, .. } => {
            all_suit(scope, body.get(), wanted) && handler_suits(scope, handler, wanted)
        }
        Expr::Match { cases, .. } => cases_suit(scope, cases, wanted),
        Expr::Prim { op, args } => prim_suits(scope, *op, args, wanted),
        Expr::Int(_)
        | Expr::Long(_)
        | Expr::Bool(_)
        | Expr::Text(_)
        | Expr::Null
        | Expr::Unit
        | Expr::Local(_)
        | Expr::SetLocal(..)
        | Expr::This
        | Expr::Get { .. }
        | Expr::Put { .. }
        | Expr::Call { .. }
        | Expr::New { .. }
        | Expr::Convert { .. }
        | Expr::Equal(..)
        | Expr::TextOf(_)
        | Expr::Println(_)
        | Expr::While(..)
        | Expr::Throw(_)
        | Expr::Start(_)
        | Expr::LazyGet { .. }
        | Expr::ObjectGet(_)
        | Expr::SuperCall { .. }
        | Expr::Test { .. }
        | Expr::Cas { .. }
        | Expr::NewLatch(_)
        | Expr::OwnedHere(_)
        | Expr::Await(_)
        | Expr::CountDown(_)
        | Expr::StaticCall { .. }
        | Expr::ModuleGet(_)
        | Expr::SetModule(..) => some_suits(scope.program, plain_type(scope, e), wanted),
    }
}

// Whether the last of some statements suits.
#[cycle(fitting)]
fn last_suits(scope: Scope<'_>, es: &Items<Expr>, wanted: Wanted) -> bool
    ensures { result ≡ all_suit (classes_of scope.entry) wanted (last_of (within scope.entry types_of_each es.now)) }
{
    match es.as_slice() {
        [] => suits(scope.program, Ty::Unit, wanted),
        [.., last] => all_suit(scope, last, wanted),
    }
}

// Whether what a handler gives suits.
#[cycle(fitting)]
fn handler_suits(scope: Scope<'_>, handler: &Option<Catch>, wanted: Wanted) -> bool
    ensures { result ≡ all_suit (classes_of scope.entry) wanted (within scope.entry types_of_handler handler.now) }
{
    match handler {
        None => true,
        Some(Catch::Cases(cases)) => cases_suit(scope, cases, wanted),
        Some(Catch::Any { local: _, body }) => all_suit(scope, body.get(), wanted),
    }
}

// Whether what each case gives suits.
#[cycle(fitting)]
fn cases_suit(scope: Scope<'_>, cases: &Items<Case>, wanted: Wanted) -> bool
    ensures { result ≡ all_suit (classes_of scope.entry) wanted (all_of (map (within scope.entry types_of_case) cases.now)) }
{
    for c in cases.as_slice() {
        if !all_suit(scope, &c.body, wanted) {
            return false;
        }
    }
    true
}

// Whether what an operator gives suits.
fn prim_suits(scope: Scope<'_>, op: PrimOp, args: &Items<Expr>, wanted: Wanted) -> bool
    ensures { result ≡ all_suit (classes_of scope.entry) wanted (prim_types (classes_of scope.entry) op (within scope.entry types_of_each args.now)) }
{
    some_suits(scope.program, prim_type(scope, op, args), wanted)
}
